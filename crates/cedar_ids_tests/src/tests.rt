// Tests of behavior that no contract states: worked examples, error messages, locations, non-ASCII texts, and one run
// of each function with enough memory. No function owns a value while another operation may fail.
mod locations;
mod round_trip;
mod rows;
mod uids;

// Returns whether a result is `Ok` and its value equals another one.
fn is_equal<T: Eq + Drop, E: Drop>(made: Result<T, E>, other: &T) -> bool {
    match made {
        Ok(x) => {
            let told = x == *other;
            drop(x);
            told
        }
        Err(error) => {
            drop(error);
            false
        }
    }
}

// Returns whether a result is `Ok` and its value differs from another one.
fn is_other<T: Eq + Drop, E: Drop>(made: Result<T, E>, other: &T) -> bool {
    match made {
        Ok(x) => {
            let told = x != *other;
            drop(x);
            told
        }
        Err(error) => {
            drop(error);
            false
        }
    }
}
