// Tests of annotations. They are written as pairs of a key and a text, `k=v`.
use cedar_alloc_failures::{
    CallOutcome, Calls, Row, both, check_failures, copied_with_text, judged, owned, same_copied,
    unmade, with, with_last, with_word,
};
use cedar_annotation::{Annotation, Annotations};
use cedar_ids::id::AnyId;
use std::alloc::Global;

fn annotation(alloc: Global, text: &str) -> Option<Annotation> {
    match owned(alloc, text) {
        Some(text) => Some(Annotation::with_optional_value(alloc, Some(text), None)),
        None => None,
    }
}

fn pair(alloc: Global, text: &str) -> Option<(AnyId, Annotation)> {
    let (key, val) = text.split_once('=').unwrap_or((text, ""));
    both(
        AnyId::from_normalized_str(alloc, key).ok(),
        annotation(alloc, val),
    )
}

fn pairs(alloc: Global, texts: &str) -> Option<Vec<(AnyId, Annotation)>> {
    let mut all = Some(Vec::new(alloc));
    for text in texts.split_whitespace() {
        all = with_last(all, pair(alloc, text));
    }
    all
}

// Returns the annotations with these pairs.
pub(super) fn annotations(alloc: Global, texts: &str) -> Option<Annotations> {
    match pairs(alloc, texts) {
        Some(pairs) => Annotations::try_from_iter(alloc, pairs).ok(),
        None => None,
    }
}

fn text_of(alloc: Global, all: &Annotations) -> Option<String> {
    let mut text = Some(String::new(alloc));
    for (key, annotation) in all.iter() {
        text = with_word(with_word(text, key.as_ref()), annotation.as_ref());
    }
    text
}

fn is_told(alloc: Global, all: &Annotations, want: &str) -> bool {
    match text_of(alloc, all) {
        Some(text) => {
            let told = text.as_str().trim() == want;
            drop(text);
            told
        }
        None => false,
    }
}

pub(super) struct OnAnnotations;

const ANNOTATIONS: &str = "
    Annotations::try_from_iter | k=v j=u k=w | j u k w
    - Annotations::try_from_iter
    Annotation::clone | v
    Annotations::clone | k=v j=u | j u k v
    - Annotations::clone
";

impl Calls for OnAnnotations {
    fn tried(&self, alloc: Global, number: usize, row: Row<'_>) -> CallOutcome {
        match row.call {
            "Annotations::try_from_iter" => {
                with(alloc, number, pairs(alloc, row.given), |pairs| {
                    judged(
                        alloc,
                        Annotations::try_from_iter(alloc, pairs),
                        row.want,
                        |all| { is_told(alloc, all, row.want) },
                    )
                })
            }
            "Annotation::clone" => same_copied(alloc, number, annotation(alloc, row.given)),
            "Annotations::clone" => {
                copied_with_text(
                    alloc,
                    number,
                    annotations(alloc, row.given),
                    row.want,
                    text_of,
                )
            }
            _ => unmade(),
        }
    }
}

#[test]
fn each_call_on_annotations(rt: HostRuntime) {
    assert!(rt; check_failures(rt, &OnAnnotations, ANNOTATIONS));
}
