// The lines of JSON Lines.
use simd_json_ondemand::lines;

const STREAMS: &[(&[u8], &[&[u8]])] = &[
    (b"", &[]),
    (b"\n", &[]),
    (b" \r\n\t\n", &[]),
    (b"1", &[b"1"]),
    (b"1\n", &[b"1"]),
    (b"\n 1 \n\n2\r\n3", &[b" 1 ", b"2\r", b"3"]),
    (b"{\"a\":\n1}\x0b", &[b"{\"a\":", b"1}\x0b"]),
];

#[test]
fn lines_are_what_is_between_line_feeds(rt: HostRuntime) {
    for (input, wanted) in STREAMS {
        let mut left = lines(input);
        for line in *wanted {
            assert_eq!(rt; left.next(), Some(*line), "{input:?}");
        }
        assert_eq!(rt; left.next(), None, "{input:?}");
    }
}
