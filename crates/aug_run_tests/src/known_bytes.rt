//! The program over bytes that are known: what it puts out is known too, by its contract alone.
ghost use Rattle.std.specs.Prelude.{◌≡◌, IfSome, codes};

use crate::assertions::equal;
use crate::test_input::TestInput;
use aug_command::Options;
use aug_report::one_list;
use aug_run::carry_out;
use aug_script::{Limits, MemorySink};
use std::alloc::Global;
use std::sync::Wait;
use std::test::Fail;
use std::thread::Threads;

// The status and the output of a script of one lane. That status 0 comes with this output alone follows from what `carry_out` and the theorem
// `one_list` say.
fn run_known_bytes<R: Threads + Wait>(rt: &R, alloc: Global) -> Option<(u8, MemorySink)>
    ensures { IfSome result (λ left. left.0 ≡ 0 → left.1.out.items ≡ codes "1 0 insert 5 = new\n1 0 look = ok\n1 0 size = 1\n1 end size=1 in=1 out=0\n") }
{
    let limits = Limits::try_new(4, 1, 64).ok()?;
    let asked = Ok(Options { limits, file: None });
    let mut input = TestInput::new(b"0,insert,5\n0,look\n0,size\n", "a.csv", b"");
    let mut output = MemorySink::new(alloc, 7, None);
    let mut errors = MemorySink::new(alloc, 7, None);
    one_list();
    let status = carry_out(rt, alloc, asked, &mut input, &mut output, &mut errors);
    Some((status, output))
}

#[test]
fn known_bytes_come_to_a_known_output(rt: HostRuntime) -> Result<(), Fail> {
    let left = run_known_bytes(&rt, rt.alloc());
    let (status, output) = left.expect(&rt, "limits");
    equal(&rt, status, 0);
    equal(&rt, output.finished, 1);
    Ok(())
}
