//! New ids for a merge: the ids `policy0`, `policy1` and so on that neither set uses.
ghost use Rattle.std.specs.Prelude.{◌≡◌, ◌+◌, ◌++◌, ◌∷◌, [], ◌^◌, ◌<◌, IfOk, OnOk, List, ℕ, length, codes};
ghost use Rattle.std.specs.String.{string_bytes};
ghost use Rattle.std.specs.Map.{keys_of, values_of};
ghost use Rattle.cedar_policy_maps.specs.PolicySets.{AreOnce};
ghost use Rattle.cedar_policy_merge.specs.Fresh.{numeral, numbered, is_bound_in_either, free_below, IsFree};
ghost use Rattle.cedar_policy_merge.specs.Fresh.{AreFree};
ghost use Rattle.cedar_policy_merge.specs.laws.FreshLaws.{count};
ghost use Rattle.cedar_policy_merge.specs.laws.Trials.{number_of, IsAt};

use cedar_ids::policy_id::PolicyID;
use cedar_policy_maps::PolicyMaps;
use indexmap::{IndexMap, IndexSet};
use std::alloc::{AllocError, Global};
use std::hash::BuildHasher;

// The capacity of a new id, enough for most numbers.
const ROOM: usize = 16;

// The number that is tried next, as its tens and its last digit. `stem` has the decimal digits of the tens, or is empty
// if there are no tens. So most numbers are written without a division.
#[derive(Drop)]
struct Trial {
    tens: u128,
    digit: u8,
    stem: String,
}

// Returns the number 0. Does not allocate.
fn first(alloc: Global) -> Trial
    ensures at { IsAt result }
    ensures number { number_of result ≡ 0 }
{
    Trial {
        tens: 0,
        digit: 0,
        stem: String::new(alloc),
    }
}

// Returns the decimal digits of a number. A number that fits into 64 bits is converted faster.
fn digits_of(alloc: Global, number: u128) -> Result<String, AllocError>
    ensures { IfOk result (λ s. string_bytes s ≡ numeral number) }
{
    if number < 0x1_0000_0000_0000_0000 {
        let small = number as u64;
        let text = format!(in alloc; "{small}")?;
        return Ok(text);
    }
    let text = format!(in alloc; "{number}")?;
    Ok(text)
}

// Advances to the next number.
#[tactic(auto, using(crate::specs::laws::Trials::stem_more))]
fn go_on(alloc: Global, trial: &mut Trial) -> Result<(), AllocError>
    requires at { IsAt trial.old }
    requires small { number_of trial.old < 2 ^ 100 }
    ensures at { OnOk result (IsAt trial.new) }
    ensures number { OnOk result (number_of trial.new ≡ number_of trial.old + 1) }
{
    if trial.digit < 9 {
        trial.digit += 1;
        return Ok(());
    }
    trial.tens += 1;
    trial.digit = 0;
    trial.stem = digits_of(alloc, trial.tens)?;
    Ok(())
}

// Returns the character of a digit.
fn digit_text(digit: u8) -> &'static str
    requires { digit < 10 }
    ensures { result.now ≡ (48 + digit) ∷ [] }
{
    match digit {
        0 => "0",
        1 => "1",
        2 => "2",
        3 => "3",
        4 => "4",
        5 => "5",
        6 => "6",
        7 => "7",
        8 => "8",
        _ => "9",
    }
}

// Returns the id of the number with these tens and this last digit. Reuses the buffer of `id`.
fn id_of(stem: &str, digit: u8, id: PolicyID) -> Result<PolicyID, AllocError>
    requires { digit < 10 }
    ensures { IfOk result (λ i. i ≡ codes "policy" ++ (stem.now ++ (48 + digit) ∷ [])) }
{
    let mut text = id.into_smolstr();
    text.clear();
    text.push_str("policy")?;
    text.push_str(stem)?;
    text.push_str(digit_text(digit))?;
    Ok(PolicyID::from_smolstr(text))
}

// Returns the id of the number that is tried. Reuses the buffer of `id`.
fn numbered(trial: &Trial, id: PolicyID) -> Result<PolicyID, AllocError>
    requires { IsAt trial.now }
    ensures { IfOk result (λ i. i ≡ numbered (number_of trial.now)) }
{
    let id = id_of(trial.stem.as_str(), trial.digit, id)?;
    Ok(id)
}

// Returns whether one of the two sets uses the id.
fn is_bound_in_either<S: BuildHasher + Copy>(
    here: &PolicyMaps<S>,
    other: &PolicyMaps<S>,
    id: &PolicyID,
) -> bool
    ensures { result ≡ is_bound_in_either here.now other.now id.now }
{
    here.is_bound(id) || other.is_bound(id)
}

// Returns the first free id from this number on, and advances `trial` to its number.
fn next_free<S: BuildHasher + Copy>(
    alloc: Global,
    here: &PolicyMaps<S>,
    other: &PolicyMaps<S>,
    trial: &mut Trial,
) -> Result<PolicyID, AllocError>
    requires at { IsAt trial.old }
    requires small { free_below (is_bound_in_either here.now other.now) (number_of trial.old) + count here.now other.now
        < 2 ^ 100 }
    ensures at { OnOk result (IsAt trial.new) }
    ensures named { IfOk result (λ i. i ≡ numbered (number_of trial.new)) }
    ensures free { OnOk result (IsFree (is_bound_in_either here.now other.now)
        (free_below (is_bound_in_either here.now other.now) (number_of trial.old)) (number_of trial.new)) }
    ensures small { OnOk result (number_of trial.new < 2 ^ 100) }
{
    let mut id = PolicyID::from_smolstr(String::with_capacity(alloc, ROOM)?);
    loop {
        id = numbered(trial, id)?;
        if !is_bound_in_either(here, other, &id) {
            return Ok(id);
        }
        go_on(alloc, trial)?;
    }
}

// Returns the number of policies and bodies of both sets.
fn count_ids<S: BuildHasher + Copy>(here: &PolicyMaps<S>, other: &PolicyMaps<S>) -> u128
    ensures count { result ≡ count here.now other.now }
    ensures small { result < 2 ^ 66 }
{
    size(here) + size(other)
}

// Returns the number of policies and bodies of a set.
fn size<S: BuildHasher + Copy>(set: &PolicyMaps<S>) -> u128
    ensures size { result ≡ length set.now.policies + length set.now.bodies }
    ensures small { result < 2 ^ 65 }
{
    set.policy_count() as u128 + set.body_count() as u128
}

// Returns the renaming of `ids` to the first free ids, in order.
pub(crate) fn fresh_ids<S: BuildHasher + Copy>(
    alloc: Global,
    ids: IndexSet<PolicyID, S>,
    here: &PolicyMaps<S>,
    other: &PolicyMaps<S>,
) -> Result<IndexMap<PolicyID, PolicyID, S>, AllocError>
    requires { AreOnce (λ (i : List ℕ). i) ids.keys }
    ensures keys { IfOk result (λ r. keys_of r.entries ≡ ids.keys) }
    ensures free { IfOk result (λ r. AreFree (is_bound_in_either here.now other.now) 0 (values_of r.entries)) }
{
    // No effect on the result: this count shows that there are enough numbers.
    let _count = count_ids(here, other);
    let mut renaming = IndexMap::with_capacity_and_hasher(alloc, ids.len(), *ids.hasher())?;
    let mut trial = first(alloc);
    for id in ids {
        let fresh = next_free(alloc, here, other, &mut trial)?;
        renaming.insert(id, fresh)?;
        go_on(alloc, &mut trial)?;
    }
    Ok(renaming)
}
