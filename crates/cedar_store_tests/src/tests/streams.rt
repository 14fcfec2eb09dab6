// Readers and writers with several buffers, and a writer that sends its bytes only at the flush.
use super::{Way, ran, ways};
use cedar_test_helpers::results::{beside, kept};
use std::alloc::Global;
use std::io;
use std::io::{Read, Write};
use std::test::Fail;

// Appends the fields of the groups 10 to 69, in order.
fn push_groups(text: &mut String) -> Result<(), Fail> {
    for i in 10..70 {
        write!(text, "\tGroup::\"g{i}\"")?;
    }
    Ok(())
}

// Appends `n` entities without parents.
fn push_users(text: &mut String, n: usize) -> Result<(), Fail> {
    for i in 0..n {
        write!(text, "\nent\tUser::\"user number {i}\"")?;
    }
    Ok(())
}

// Appends a user with 60 parents, `n` entities without parents, a build, and `often` queries of the user's ancestors.
fn push_many(text: &mut String, n: usize, often: usize) -> Result<(), Fail> {
    text.push_str("ent\tUser::\"u\"")?;
    push_groups(text)?;
    push_users(text, n)?;
    text.push_str("\nbuild\n")?;
    for _ in 0..often {
        text.push_str("anc\tUser::\"u\"\n")?;
    }
    Ok(())
}

// Appends the expected output.
fn push_due(text: &mut String, n: usize, often: usize) -> Result<(), Fail> {
    let count = n.saturating_add(1);
    write!(text, "ok {count}\n")?;
    for _ in 0..often {
        text.push_str("anc")?;
        push_groups(text)?;
        text.push_str("\n")?;
    }
    Ok(())
}

// Returns the input with a user with 60 parents and `n` entities without parents, and the expected output.
fn many(alloc: Global, n: usize, often: usize) -> Result<(String, String), Fail> {
    let mut input = String::new(alloc);
    let added = push_many(&mut input, n, often);
    let input = kept(input, added)?;
    let mut output = String::new(alloc);
    let added = push_due(&mut output, n, often);
    beside(input, kept(output, added))
}

// A reader that returns at most `most` bytes per read.
#[derive(Drop)]
struct Slow<'a> {
    left: &'a [u8],
    most: usize,
}

impl Read for Slow<'_> {
    fn read(&mut self, buf: &mut [u8]) -> io::Result<usize> {
        let count = self.left.len().min(buf.len()).min(self.most);
        buf[..count].copy_from_slice(&self.left[..count]);
        self.left = &self.left[count..];
        Ok(count)
    }
}

// Checks whether a run over an input larger than its buffer has the whole output, with at most `most` bytes per read.
fn is_whole(alloc: Global, way: Way, input: &str, want: &str, most: usize) -> bool {
    let mut reader = Slow {
        left: input.as_bytes(),
        most,
    };
    let mut out = Vec::new(alloc);
    let status = ran(alloc, way, &mut reader, &mut out);
    let told = matches!(status, Ok(0)) && out.as_slice() == want.as_bytes();
    drop(out);
    told && input.len() > 32_769
}

// Calls `is_whole` with the default hasher builder and with two keys.
fn are_whole(alloc: Global, input: &str, want: &str, most: usize) -> bool {
    for way in ways(false) {
        if !is_whole(alloc, way, input, want, most) {
            return false;
        }
    }
    true
}

// Calls `are_whole` for 1,200 entities and `often` queries of the ancestors of one.
fn many_are_whole(alloc: Global, most: usize, often: usize) -> Result<bool, Fail> {
    let (input, want) = many(alloc, 1200, often)?;
    let told = are_whole(alloc, &input, &want, most) && want.len() > often.saturating_mul(700);
    drop(input);
    drop(want);
    Ok(told)
}

#[test]
fn inputs_and_outputs_of_several_buffers_are_whole(rt: HostRuntime) -> Result<(), Fail> {
    // Three bytes, one byte, and as many as the buffer can take.
    for most in [3, 1, usize::MAX] {
        assert!(rt;
            many_are_whole(rt.alloc(), most, 100)?,
            "by {most} bytes a read"
        );
    }
    Ok(())
}

#[test]
fn parts_of_an_input_are_of_any_size(rt: HostRuntime) -> Result<(), Fail> {
    // A few bytes, about a page, and about 32 KiB.
    for most in [
        2, 4, 5, 6, 7, 8, 9, 4095, 4096, 4097, 32_767, 32_768, 32_769,
    ] {
        assert!(rt;
            many_are_whole(rt.alloc(), most, 1)?,
            "by {most} bytes a read"
        );
    }
    Ok(())
}

// A reader that returns at most nine bytes per read. Before each read, and before the end, it is interrupted `often`
// times.
#[derive(Drop)]
struct Interrupted<'a> {
    left: &'a [u8],
    often: usize,
    interrupted: usize,
}

impl Read for Interrupted<'_> {
    fn read(&mut self, buf: &mut [u8]) -> io::Result<usize> {
        if self.interrupted < self.often {
            self.interrupted = self.interrupted.saturating_add(1);
            return Err(io::Error::from(io::ErrorKind::Interrupted));
        }
        self.interrupted = 0;
        let count = self.left.len().min(buf.len()).min(9);
        buf[..count].copy_from_slice(&self.left[..count]);
        self.left = &self.left[count..];
        Ok(count)
    }
}

// Checks whether a run over an interrupted reader has the whole output.
fn is_read_on(alloc: Global, way: Way, input: &str, want: &str, often: usize) -> bool {
    let mut reader = Interrupted {
        left: input.as_bytes(),
        often,
        interrupted: 0,
    };
    let mut out = Vec::new(alloc);
    let status = ran(alloc, way, &mut reader, &mut out);
    let told = matches!(status, Ok(0)) && out.as_slice() == want.as_bytes();
    drop(out);
    told
}

// Calls `is_read_on` for runs that leak memory, or that free it.
fn are_read_on(alloc: Global, leaves: bool, input: &str, want: &str, often: usize) -> bool {
    for way in ways(leaves) {
        if !is_read_on(alloc, way, input, want, often) {
            return false;
        }
    }
    true
}

// Calls `are_read_on` for three entities.
fn three_are_read_on(alloc: Global, often: usize) -> Result<bool, Fail> {
    let (input, want) = many(alloc, 3, 3)?;
    let told = are_read_on(alloc, false, &input, &want, often)
        && are_read_on(alloc, true, &input, &want, often);
    drop(input);
    drop(want);
    Ok(told)
}

#[test]
fn an_interrupted_read_is_made_again(rt: HostRuntime) -> Result<(), Fail> {
    for often in [1, 2, 50] {
        assert!(rt;
            three_are_read_on(rt.alloc(), often)?,
            "interrupted {often} times before each read"
        );
    }
    Ok(())
}

// A writer that buffers its bytes until the flush.
#[derive(Drop)]
struct Kept {
    kept: Vec<u8>,
    sent: Vec<u8>,
}

impl Write for Kept {
    fn write(&mut self, buf: &[u8]) -> io::Result<usize> {
        match self.kept.extend_from_slice(buf) {
            Ok(()) => Ok(buf.len()),
            Err(_) => Err(io::Error::from(io::ErrorKind::OutOfMemory)),
        }
    }

    fn flush(&mut self) -> io::Result<()> {
        if self.sent.extend_from_slice(&self.kept).is_err() {
            return Err(io::Error::from(io::ErrorKind::OutOfMemory));
        }
        self.kept.clear();
        Ok(())
    }
}

// Checks whether a run sends everything at the flush, and nothing remains in the buffer.
fn is_sent(alloc: Global, way: Way, input: &str, want: &str) -> bool {
    let mut reader = input.as_bytes();
    let mut writer = Kept {
        kept: Vec::new(alloc),
        sent: Vec::new(alloc),
    };
    let status = ran(alloc, way, &mut reader, &mut writer);
    let told = matches!(status, Ok(0)) && writer.sent.as_slice() == want.as_bytes();
    let kept = writer.kept.is_empty();
    drop(writer);
    told && kept
}

// Calls `is_sent` for runs that leak memory, or that free it.
fn are_sent(alloc: Global, leaves: bool, input: &str, want: &str) -> bool {
    for way in ways(leaves) {
        if !is_sent(alloc, way, input, want) {
            return false;
        }
    }
    true
}

// Calls `are_sent` for three entities.
fn three_are_sent(alloc: Global) -> Result<bool, Fail> {
    let (input, want) = many(alloc, 3, 3)?;
    let told = are_sent(alloc, false, &input, &want) && are_sent(alloc, true, &input, &want);
    drop(input);
    drop(want);
    Ok(told)
}

#[test]
fn the_flush_comes_after_the_last_byte(rt: HostRuntime) -> Result<(), Fail> {
    assert!(rt; three_are_sent(rt.alloc())?);
    Ok(())
}
