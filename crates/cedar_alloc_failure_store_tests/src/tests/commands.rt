// Steps that the tests of lines on the store and of lines on policy sets repeat, over other types. A module that uses one
// imports the functions that the step calls.

// Returns whether bytes have these words. Tabs and ends of lines count as spaces.
pub(super) fn are_words(bytes: &[u8], want: &str) -> bool {
    match str::from_utf8(bytes) {
        Ok(text) => cedar_alloc_failures::has_words(text, want),
        Err(_) => false,
    }
}

// Reads the command with a text, with an empty cache.
macro_rules! command_in {
    ($alloc:ident, $text:ident, $cache:ident, $read:ident) => {{
        let fields: Result<Vec<&str>, std::alloc::AllocError> = $text.split(' ').collect($alloc);
        match fields {
            Ok(fields) => {
                let mut known = $cache::new($alloc);
                let command = $read($alloc, &mut known, fields.as_slice());
                drop(known);
                drop(fields);
                match command {
                    Ok(command) => command,
                    Err(_) => None,
                }
            }
            Err(_) => None,
        }
    }};
}

pub(super) use command_in;

// Runs commands. Returns from the function with `false` if one of them fails.
macro_rules! prepared_by {
    ($alloc:ident, $state:ident, $texts:ident) => {{
        for text in $texts.split(';') {
            if !text.trim().is_empty() {
                match command($alloc, text.trim()) {
                    Some(command) => {
                        let mut out = Vec::new($alloc);
                        let taken = $state.take($alloc, command, &mut out).is_ok();
                        drop(out);
                        if !taken {
                            return false;
                        }
                    }
                    None => return false,
                }
            }
        }
        true
    }};
}

pub(super) use prepared_by;

// Runs the last command of a case, after the others, on a new state.
macro_rules! taken_by {
    ($alloc:ident, $number:ident, $row:ident, $state:ident) => {{
        let (before, text) = $row.given.rsplit_once(';').unwrap_or(("", $row.given));
        let mut state = $state::new($alloc);
        let well = prepared($alloc, &mut state, before);
        let tried = match command($alloc, text.trim()) {
            Some(command) if well => {
                let mut out = Vec::new($alloc);
                refuse($alloc, $number);
                let answer = state.take($alloc, command, &mut out);
                let refused = stop_failing($alloc);
                let answer = match answer {
                    Ok(()) => ample_if(are_words(out.as_slice(), $row.want)),
                    Err(_) => Answer::Memory,
                };
                drop(out);
                CallOutcome { answer, refused }
            }
            command => {
                drop(command);
                unmade()
            }
        };
        drop(state);
        tried
    }};
}

pub(super) use taken_by;
