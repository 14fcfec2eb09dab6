//! Copies results to the caller.
ghost use Rattle.std.specs.Prelude.{◌≡◌};
ghost use Rattle.cedar_c.specs.Copying.{CopiesOut};

// Copies the items from position `from` on, as many as fit, and returns the length of the whole.
pub(crate) fn copy_out<T: Copy>(whole: &[T], from: usize, out: &mut [T]) -> usize
    ensures { CopiesOut whole.now from out.old result out.new }
{
    if from < whole.len() {
        let count = (whole.len() - from).min(out.len());
        out[..count].copy_from_slice(&whole[from..from + count]);
    }
    whole.len()
}
