// What the program's words ask for.
use crate::tests::Tested;
use jtape::{number_named, settings};

// A line for each list of words, and what they ask for.
const WORDS: &str = "tape @ Some((Tape, 1024))
positions @ Some((Positions, 1024))
compact @ Some((Compact, 1024))
pretty @ Some((Pretty, 1024))
pretty 2 @ Some((Pretty, 2))
lines @ Some((Lines, 1024))
lines 3 @ Some((Lines, 3))
tape 8 @ Some((Tape, 8))
tape 007 @ Some((Tape, 7))
tape 0 @ Some((Tape, 0))
tape 18446744073709551615 @ Some((Tape, 18446744073709551615))
tape 18446744073709551616 @ None
tree @ None
tree 8 @ None
tape 1 2 @ None
tape x @ None
tape +1 @ None
tape -1 @ None
tape  @ None
 @ None
Tape @ None
position @ None";

#[test]
fn words_are_understood(rt: HostRuntime) -> Tested {
    assert_eq!(rt; settings(&[]), None);
    for line in WORDS.lines() {
        let (given, wanted) = line.split_once(" @ ").expect(&rt, "it has both");
        let mut words = Vec::new(rt.alloc());
        for word in given.split(' ') {
            words.push(String::from_str(rt.alloc(), word)?)?;
        }
        let found = format!(in rt.alloc(); "{:?}", settings(words.as_slice()))?;
        assert_eq!(rt; found.as_str(), wanted, "{line:?}");
    }
    Ok(())
}

#[test]
fn numbers_have_digits_alone(rt: HostRuntime) {
    assert_eq!(rt; number_named("042"), Some(42));
    assert_eq!(rt; number_named("4 "), None);
}
