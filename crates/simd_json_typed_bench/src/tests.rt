use super::*;
use std::process::Abort;
use std::test::Fail;

// What each contender returns of three texts that follow each other with a gap of two bytes.
fn assert_sums(
    rt: &impl Abort,
    alloc: Global,
    text: &[u8],
    form: u32,
    sums: [u64; 4],
) -> Result<(), Fail> {
    let (len, stride) = (text.len(), text.len().saturating_add(2));
    let mut texts = Vec::new(alloc);
    for _ in 0..3 {
        texts.extend_from_slice(text)?;
        texts.extend_from_slice(b"\n\n")?;
    }
    let found = [
        simd_json_typed_serde_json(alloc, &texts, stride, len, form),
        simd_json_typed_serde_json_borrowed(alloc, &texts, stride, len, form),
        simd_json_typed_owned(alloc, &mut texts.clone()?, stride, len, form),
        simd_json_typed_borrowed(alloc, &mut texts, stride, len, form),
    ];
    assert_eq!(rt; found, sums);
    Ok(())
}

#[test]
fn all_agree(rt: HostRuntime) -> Result<(), Fail> {
    let line = br#"{"time":1,"level":"a","host":"bc","path":"","status":2,"ms":1e3,"user":null,
        "retry":true,"text":"xyz"}"#;
    assert_sums(&rt, rt.alloc(), line, 0, [3 * 6_000_656; 4])?;
    let map = br#"{"features":[{"geometry":{"coordinates":[[[-101.5,61],[-99,2.5]]]}}]}"#;
    assert_sums(&rt, rt.alloc(), map, 2, [3 * 4; 4])
}

#[test]
fn escapes_are_borrowed_by_ours_alone(rt: HostRuntime) -> Result<(), Fail> {
    let tweets = br#"{"statuses":[{"id":5,"text":"\n","user":{"id":1,"name":"a","screen_name":"b",
        "followers_count":2},"retweet_count":3,"favorite_count":4}]}"#;
    let sum = 3 * 3_000_434;
    assert_sums(&rt, rt.alloc(), tweets, 1, [sum, NONE, sum, sum])
}

#[test]
fn rejected_texts_have_no_sum(rt: HostRuntime) -> Result<(), Fail> {
    assert_sums(&rt, rt.alloc(), b"[1,]", 0, [NONE; 4])?;
    assert_sums(&rt, rt.alloc(), b"{\"statuses\":1}", 1, [NONE; 4])
}
