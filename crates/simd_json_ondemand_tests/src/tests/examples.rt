// The examples of the documents.
use super::MEMORY;
use simd_json_ondemand::{Checker, Document, Index, Result, Unexpected, Value, lines};

fn name_len(rt: &impl AllocGlobal, input: &[u8]) -> Result<Option<usize>> {
    let mut index = Index::new(rt.alloc(), input.len())?;
    let mut buffer = Vec::new(rt.alloc());
    let root = Document::scan(&mut index, input)?.as_value();
    match root.decode(&mut buffer)? {
        Some(name) => Ok(Some(name.len())),
        None => Ok(None),
    }
}

fn sum(rt: &impl AllocGlobal, numbers: &[&[u8]]) -> Result<u64> {
    let mut index = Index::new(rt.alloc(), 64)?;
    let mut sum = 0u64;
    for number in numbers {
        let root = Document::scan(&mut index, number)?.as_value();
        sum = sum.saturating_add(root.as_u64().unwrap_or(0));
    }
    Ok(sum)
}

fn get(rt: &impl AllocGlobal, input: &[u8], key: &str) -> Result<Option<u64>> {
    let mut checker = Checker::empty(rt.alloc());
    let document = Document::check(&mut checker, input, 1024)?;
    Ok(
        document
            .as_value()
            .get(key)
            .and_then(|value| value.as_u64()),
    )
}

fn status(line: Value<'_>) -> std::result::Result<Option<u64>, Unexpected> {
    match line.try_get("status")? {
        Some(status) => Ok(Some(status.try_as_u64()?)),
        None => Ok(None),
    }
}

fn fields<'d>(message: Value<'d>) -> Option<(&'d str, Option<u64>)> {
    let mut fields = message.as_object()?;
    let mut author = fields.find("author")?.as_object()?;
    let name = author.find("name")?.as_str()?;
    fields.pass(author.end());
    Some((name, fields.find("likes")?.as_u64()))
}

fn sum_of(rt: &impl AllocGlobal, log: &[u8], key: &str) -> Result<u64> {
    let mut index = Index::new(rt.alloc(), 1024)?;
    let mut sum = 0u64;
    for line in lines(log) {
        let root = Document::scan(&mut index, line)?.as_value();
        if let Some(value) = root.get(key) {
            sum = sum.saturating_add(value.as_u64().unwrap_or(0));
        }
    }
    Ok(sum)
}

#[test]
fn examples_run(rt: HostRuntime) {
    let line = br#"{"level":"info","status":200}"#;
    let mut index = Index::new(rt.alloc(), 0).expect(&rt, MEMORY);
    let root = Document::scan(&mut index, line)
        .expect(&rt, MEMORY)
        .as_value();
    assert_eq!(rt; status(root), Ok(Some(200)));
    let len = name_len(&rt, b"\"caf\\u00e9\"").expect(&rt, MEMORY);
    assert_eq!(rt; len, Some(5));
    let sum = sum(&rt, &[b"1", b"\"2\"", b"3"]).expect(&rt, MEMORY);
    assert_eq!(rt; sum, 4);
    let checked = get(&rt, b"{\"a\":1}", "a").expect(&rt, MEMORY);
    assert_eq!(rt; checked, Some(1));
    assert!(rt; get(&rt, b"{\"a\":1", "a").is_err());
    let log = b"{\"bytes\":1}\n \n{\"other\":2}\r\n{\"bytes\":3}";
    assert_eq!(rt; sum_of(&rt, log, "bytes").expect(&rt, MEMORY), 4);
    let message = br#"{"author":{"id":1,"name":"a","likes":2},"likes":3}"#;
    let root = Document::scan(&mut index, message)
        .expect(&rt, MEMORY)
        .as_value();
    assert_eq!(rt; fields(root), Some(("a", Some(3))));
}
