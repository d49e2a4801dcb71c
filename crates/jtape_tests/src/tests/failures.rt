// What the program's arguments ask for, and how it ends.
use crate::tests::Tested;
use jtape::{Failure, Mode, RunFault, exit_status, requested};
use simd_json::{Error, ErrorType};
use std::io;

// Each way to end, its line on standard error, and its status.
#[test]
fn ends_have_lines_and_statuses(rt: HostRuntime) -> Tested {
    let rejected = Error::new(3, Some(']'), ErrorType::InternalError);
    let rows = [
        (Failure::Usage, "usage: jtape MODE [DEPTH]", 2),
        (
            Failure::Run(RunFault::Refused(rejected)),
            "InternalError at character 3 (']')",
            1,
        ),
        (Failure::Run(RunFault::Read), "reading failed", 3),
        (Failure::Run(RunFault::Write), "writing failed", 3),
    ];
    for (failure, line, wanted) in rows {
        assert_eq!(rt; format!(in rt.alloc(); "{failure}")?.as_str(), line);
        assert_eq!(rt; exit_status(Err(failure)), wanted);
    }
    for (all, wanted) in [(true, 0), (false, 1)] {
        assert_eq!(rt; exit_status(Ok(all)), wanted);
    }
    Ok(())
}

// The first argument is the program's name.
#[test]
fn arguments_are_understood(rt: HostRuntime) -> Tested {
    let rows: [(&[&str], Option<(Mode, usize)>); 5] = [
        (&["jtape", "tape"], Some((Mode::Tape, 1024))),
        (&["jtape", "tape", "7"], Some((Mode::Tape, 7))),
        (&["jtape", "tape", "7", "8"], None),
        (&["tape"], None),
        (&[], None),
    ];
    for (given, wanted) in rows {
        let mut words = Vec::new(rt.alloc());
        for word in given {
            words.push(String::from_str(rt.alloc(), word)?)?;
        }
        assert_eq!(rt;
            requested(Ok(words)),
            wanted.ok_or(Failure::Usage),
            "{given:?}"
        );
    }
    let unread = io::Error::from(io::ErrorKind::InvalidData);
    assert_eq!(rt; requested(Err(unread)), Err(Failure::Usage));
    Ok(())
}
