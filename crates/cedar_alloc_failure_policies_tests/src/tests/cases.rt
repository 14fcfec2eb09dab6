// Steps that test cases of several types repeat. A module that uses one imports the functions that the step calls.

// Creates a value of a type from the parts of a policy: `parts` is the id with the annotations, and the action constraint
// with the clause.
macro_rules! of_parts {
    ($type:ident, $alloc:expr, $text:expr, $parts:expr) => {{
        let ((id, notes), (action, clause)) = $parts;
        $type::new(
            $alloc,
            id,
            None,
            notes,
            effect($text),
            principal($text),
            action,
            resource($text),
            clause,
        )
    }};
}

pub(super) use of_parts;

// Runs a method that consumes an id, on a value that `$given` creates. The text of a case is the text of the value, a
// separator and the id. The expected text is the id and the text of the result.
macro_rules! under_another_id {
    ($alloc:ident, $number:ident, $row:ident, $given:ident, $separator:literal, |$thing:ident, $id:ident| $call:expr) => {{
        let (text, name) = $row.given.split_once($separator).unwrap_or(($row.given, ""));
        match both(id($alloc, name), $given($alloc, text)) {
            Some(($id, $thing)) => {
                let tried = with($alloc, $number, Some($id), |$id| {
                    judged($alloc, $call, $row.want, |made| {
                        has_id_and_text($alloc, made.id(), made, $row.want)
                    })
                });
                drop($thing);
                tried
            }
            None => unmade(),
        }
    }};
}

pub(super) use under_another_id;

// Runs a method that only allocates, on a value that `$given` creates from the text of a case.
macro_rules! made_on {
    ($alloc:ident, $number:ident, $row:ident, $given:ident, $method:ident) => {
        on($alloc, $number, $given($alloc, $row.given), |thing| {
            made($alloc, thing.$method($alloc), $row.want)
        })
    };
}

pub(super) use made_on;
