//! Values that calls write together with their status, and the text of each status.
ghost use Rattle.std.specs.Prelude.{◌≡◌};
ghost use Rattle.std.specs.Option.{MatchOption};
ghost use Rattle.cedar_c_lists.specs.Reasons.{number_of};
ghost use Rattle.cedar_c_lists.specs.StatusTexts.{IsNoReason, IsStatusText, WritesValue};

use crate::reason::Reason;

/// Returns the status of a result with a value. For `Ok`, writes the value to `out`. Does not allocate.
pub fn write_result<T: Copy>(answer: Result<T, Reason>, out: &mut T) -> u32
    ensures { WritesValue answer result out.old out.new }
{
    match answer {
        Ok(value) => {
            *out = value;
            0
        }
        Err(reason) => reason.number(),
    }
}

/// Returns the reason with a number, if there is one. Does not allocate.
pub fn reason_with(number: u32) -> Option<Reason>
    ensures { MatchOption result (IsNoReason number) (λ w. number_of w ≡ number) }
{
    match number {
        1 => Some(Reason::NoMemory),
        2 => Some(Reason::Closed),
        3 => Some(Reason::BadArgument),
        4 => Some(Reason::NotAUid),
        5 => Some(Reason::NotUtf8),
        6 => Some(Reason::NoEntity),
        7 => Some(Reason::Duplicate),
        8 => Some(Reason::Cycle),
        9 => Some(Reason::NotClosed),
        10 => Some(Reason::SelfAncestor),
        11 => Some(Reason::DuplicateAncestor),
        12 => Some(Reason::ActionParentIsNotAction),
        13 => Some(Reason::ReservedKey),
        14 => Some(Reason::Occupied),
        15 => Some(Reason::NoSuchTemplate),
        16 => Some(Reason::Arity),
        17 => Some(Reason::NotAnAction),
        18 => Some(Reason::IdConflict),
        19 => Some(Reason::NoLink),
        20 => Some(Reason::NotALink),
        21 => Some(Reason::NoTemplate),
        22 => Some(Reason::WithLinks),
        23 => Some(Reason::NotATemplate),
        24 => Some(Reason::NoStatic),
        25 => Some(Reason::NotStatic),
        26 => Some(Reason::NoBody),
        27 => Some(Reason::NotAName),
        28 => Some(Reason::TooDeep),
        29 => Some(Reason::SlotInClause),
        30 => Some(Reason::NotActions),
        31 => Some(Reason::UnknownFunction),
        32 => Some(Reason::SlotlessLink),
        _ => None,
    }
}

/// Returns the text of a status: `ok` for 0, the text of its reason for any other status, and an empty text for any
/// other number. Does not allocate.
pub fn status_text(status: u32) -> &'static str
    ensures { IsStatusText status result.now }
{
    if status == 0 {
        return "ok";
    }
    match reason_with(status) {
        Some(reason) => reason.words(),
        None => "",
    }
}
