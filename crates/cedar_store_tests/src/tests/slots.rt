// Lines on templates with three slots and on links that bind them, in test cases written as text. In a test case a
// comma stands for a tab, and ` / ` for the end of a line. The output of a run is written in the same way, followed by
// its status.
use super::are_answered;
use super::known_lines::status_of;
use cedar_store::run;
use cedar_test_helpers::results::{kept, owned};
use cedar_test_helpers::rows::all_hold;
use std::alloc::Global;
use std::fmt::Write;
use std::test::Fail;

// Appends the lines of a test case.
fn push_lines(text: &mut String, row: &str) -> Result<(), Fail> {
    for sign in row.chars() {
        match sign {
            ',' => text.push('\t')?,
            '/' => text.push('\n')?,
            ' ' => {}
            _ => text.push(sign)?,
        }
    }
    Ok(())
}

// Returns the lines of a test case.
fn lines(alloc: Global, row: &str) -> Result<String, Fail> {
    let mut text = String::new(alloc);
    let done = push_lines(&mut text, row);
    kept(text, done)
}

// Appends the output, in the notation of a test case, and a status.
fn push_written(text: &mut String, out: &[u8], status: u8) -> Result<(), Fail> {
    for byte in out {
        match *byte {
            b'\t' => text.push(',')?,
            b'\n' => text.push_str(" / ")?,
            other => text.push(char::from(other))?,
        }
    }
    write!(text, "{status}")?;
    Ok(())
}

// Returns the output and a status as a text.
fn written(alloc: Global, out: &[u8], status: u8) -> Result<String, Fail> {
    let mut text = String::new(alloc);
    let done = push_written(&mut text, out, status);
    kept(text, done)
}

// Returns the output of a run over some lines, and its status.
fn told_of(alloc: Global, input: &str) -> Result<String, Fail> {
    let mut out = Vec::new(alloc);
    let status = status_of(run(alloc, &mut input.as_bytes(), &mut out));
    let same = are_answered(alloc, input.as_bytes(), &out, status);
    let told = if same {
        written(alloc, &out, status)
    } else {
        owned(alloc, "another output under a key")
    };
    drop(out);
    told
}

// Returns the output of a run over the lines of a test case, and its status.
fn told(alloc: Global, row: &str) -> Result<String, Fail> {
    let input = lines(alloc, row)?;
    let told = told_of(alloc, input.as_str());
    drop(input);
    told
}

const ROWS: &str =
    "# the bindings are looked at first, and then whether the action's slot is bound to an action\n\
template,t,all / link,t,l,action=A::\"x\" / template,u,action / link,u,l,action=A::\"x\" / link,u,l,action=N::Action::\"v\" / ids => ok / refused: arity / ok / refused: not an action A::\"x\" / ok / bodies,t,u / policies,l / 0\n\
# each word names its slots\n\
template,a,none / link,a,l / ids => ok / ok / bodies,a / policies,l / 0\n\
template,a,principal / link,a,l,principal=A::\"x\" / link,a,m,action=Action::\"v\" / ids => ok / ok / refused: arity / bodies,a / policies,l / 0\n\
template,a,action / link,a,l,action=Action::\"v\" / link,a,m,principal=A::\"x\" / ids => ok / ok / refused: arity / bodies,a / policies,l / 0\n\
template,a,resource / link,a,l,resource=A::\"x\" / link,a,m,action=Action::\"v\" / ids => ok / ok / refused: arity / bodies,a / policies,l / 0\n\
template,a,both / link,a,l,principal=A::\"x\",resource=A::\"y\" / link,a,m,principal=A::\"x\",action=Action::\"v\",resource=A::\"y\" / ids => ok / ok / refused: arity / bodies,a / policies,l / 0\n\
template,a,all / link,a,l,principal=A::\"x\",action=Action::\"v\",resource=A::\"y\" / link,a,m,principal=A::\"x\",resource=A::\"y\" / ids => ok / ok / refused: arity / bodies,a / policies,l / 0\n\
template,a,all / link,a,l / template,b,none / link,b,l,principal=A::\"x\",action=Action::\"v\",resource=A::\"y\" => ok / refused: arity / ok / refused: arity / 0\n\
template,a,none / template,b,principal / template,c,action / template,d,resource / template,e,both / template,f,all / template,c,all / ids => ok / ok / ok / ok / ok / ok / refused: occupied c / bodies,a,b,c,d,e,f / policies / 0\n\
# bindings come in any order\n\
template,t,all / link,t,a,principal=A::\"x\",action=Action::\"v\",resource=A::\"y\" / link,t,b,principal=A::\"x\",resource=A::\"y\",action=Action::\"v\" / link,t,c,action=Action::\"v\",principal=A::\"x\",resource=A::\"y\" / ids => ok / ok / ok / ok / bodies,t / policies,a,b,c / 0\n\
template,t,all / link,t,a,action=Action::\"v\",resource=A::\"y\",principal=A::\"x\" / link,t,b,resource=A::\"y\",principal=A::\"x\",action=Action::\"v\" / link,t,c,resource=A::\"y\",action=Action::\"v\",principal=A::\"x\" / ids => ok / ok / ok / ok / bodies,t / policies,a,b,c / 0\n\
# an action is known by the last part of its type\n\
template,t,action / link,t,a,action=Action::\"\" / link,t,b,action=N::M::Action::\"v\" / link,t,c,action=Action::Action::\"v\" / ids => ok / ok / ok / ok / bodies,t / policies,a,b,c / 0\n\
template,t,action / link,t,a,action=Action::A::\"v\" / link,t,b,action=action::\"v\" / link,t,c,action=Actions::\"v\" / link,t,d,action=A::\"Action\" => ok / refused: not an action Action::A::\"v\" / refused: not an action action::\"v\" / refused: not an action Actions::\"v\" / refused: not an action A::\"Action\" / 0\n\
template,t,action / link,t,l,action=N::A::\"it\\'s\\t\\u{1}\" / ids => ok / refused: not an action N::A::\"it\\'s\\t\\u{1}\" / bodies,t / policies / 0\n\
template,t,all / link,t,l,resource=A::\"y\",action=A::\"z\",principal=A::\"x\" => ok / refused: not an action A::\"z\" / 0\n\
# the template is looked for before, and the new id after that\n\
link,t,l,action=A::\"x\" => refused: no template t / 0\n\
static,t,permit / link,t,l,action=A::\"x\" => ok / refused: no template t / 0\n\
static,l,permit / template,t,action / link,t,l,action=A::\"x\" / link,t,l,action=Action::\"v\" / link,t,t,action=A::\"x\" / link,t,t,action=Action::\"v\" => ok / ok / refused: not an action A::\"x\" / refused: occupied l / refused: not an action A::\"x\" / refused: occupied t / 0\n\
# links that bind the action's slot go, and join another set, as others do\n\
template,t,action / link,t,l,action=Action::\"v\" / unlink,l / unlink,l / unlink,t / ids => ok / ok / ok / refused: no link l / refused: not a link t / bodies,t / policies / 0\n\
template,t,action / link,t,l,action=Action::\"v\" / other / template,t,action / link,t,l,action=Action::\"w\" / other / merge,keep / merge,rename / ids => ok / ok / ok / ok / ok / ok / refused: occupied l / ok,l,policy0 / bodies,t / policies,l,policy0 / 0\n\
template,t,action / link,t,l,action=Action::\"v\" / other / template,t,action / link,t,l,action=Action::\"v\" / other / merge,keep / ids => ok / ok / ok / ok / ok / ok / ok / bodies,t / policies,l / 0\n\
template,t,both / other / template,t,all / other / merge,keep / merge,rename / link,policy0,l,principal=A::\"x\",action=Action::\"v\",resource=A::\"y\" / ids => ok / ok / ok / ok / refused: occupied t / ok,t,policy0 / ok / bodies,t,policy0 / policies,l / 0\n\
# a slot is bound once, by the text of a uid with an eid of ASCII\n\
link,t,l,action=Action::\"v\",action=Action::\"v\" => line 1: not a command / 2\n\
template,t,action / link,t,l,action=A::\"x\",action=Action::\"v\" / ids => ok / line 2: not a command / 2\n\
link,t,l,action=Action::\"v\",principal=A::\"x\",action=Action::\"w\" => line 1: not a command / 2\n\
link,t,l,principal=A::\"x\",action=Action::\"v\",principal=A::\"x\" => line 1: not a command / 2\n\
link,t,l,principal=A::\"x\",action=Action::\"v\",resource=A::\"y\",action=Action::\"v\" => line 1: not a command / 2\n\
link,t,l,principal=A::\"x\",action=Action::\"v\",resource=A::\"y\",resource=A::\"y\" => line 1: not a command / 2\n\
link,t,l,action= => line 1: not a command / 2\n\
link,t,l,action=Action::v => line 1: not a command / 2\n\
link,t,l,action=Action::\"\\u{80}\" => line 1: not a command / 2\n\
link,t,l,action=Action::\"v\", => line 1: not a command / 2\n\
link,t,l,actions=Action::\"v\" => line 1: not a command / 2\n\
link,t,l,Action=Action::\"v\" => line 1: not a command / 2\n\
link,t,l,Action::\"v\" => line 1: not a command / 2\n\
link,t,action=Action::\"v\",l => line 1: not a command / 2\n\
# a template's word is one of six\n\
template,t,actions => line 1: not a command / 2\n\
template,t,All => line 1: not a command / 2\n\
template,t, => line 1: not a command / 2\n\
template,t,three => line 1: not a command / 2\n\
template,t,all,none => line 1: not a command / 2\n\
template,t,action,resource => line 1: not a command / 2\n\
template,all => line 1: not a command / 2";

#[test]
fn lines_have_three_slots(rt: HostRuntime) -> Result<(), Fail> {
    all_hold(rt.alloc(), ROWS, told)
}
