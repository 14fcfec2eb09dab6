//! The frames of the calls on handles of stores and of policy sets. A module that uses them imports `take` and `opened` of
//! its kind of handle.

// The status of a closed handle.
pub(crate) const CLOSED: u32 = 2;

// Makes a call on the contents of an open handle, puts them back, and returns the result of the call. A closed handle
// gives the second argument, and no call is made.
macro_rules! on_open {
    (in $alloc:ident; $handle:ident, $closed:expr, |$state:ident| $call:expr) => {
        match take($alloc, $handle) {
            None => $closed,
            Some(mut inner) => {
                let $state = &mut inner.kept;
                let result = $call;
                *$handle = opened(inner);
                result
            }
        }
    };
}

pub(crate) use on_open;

// Makes a call on the contents of two open handles, puts them back, and returns the result of the call. If one of the
// handles is closed, returns `CLOSED`, and no call is made.
macro_rules! on_both {
    (in $alloc:ident; $handle:ident, $other:ident, |$state:ident, $beside:ident| $call:expr) => {
        match take($alloc, $handle) {
            None => CLOSED,
            Some(mut inner) => match take($alloc, $other) {
                None => {
                    *$handle = opened(inner);
                    CLOSED
                }
                Some(beside) => {
                    let $state = &mut inner.kept;
                    let $beside = &beside.kept;
                    let result = $call;
                    *$handle = opened(inner);
                    *$other = opened(beside);
                    result
                }
            },
        }
    };
}

pub(crate) use on_both;
