// The example of the crate's page, as it stands there, and one of a descendant segment.
use crate::tests::Tested;
use simd_json::to_tape;

mod page {
    use bumpalo::Bump;
    use simd_json::tape::Value;
    use simd_json_path::{Frame, Path};

    // The sum of the prices of all orders, or what failed.
    pub(super) fn total(
        rt: &impl AllocGlobal,
        value: &Value<'_, '_>,
    ) -> anyhow::Result<Option<u64>> {
        let arena = Bump::new(rt.alloc());
        let path = Path::new(&arena, "$.orders[*].items[*].price")?;
        let mut frames = [Frame::closed(); 2];
        let mut sum = Some(0u64);
        for price in path.select(value, &mut frames) {
            let price = price?.as_u64();
            sum = sum.and_then(|sum| sum.checked_add(price?));
        }
        Ok(sum)
    }
}

mod reading {
    use simd_json::tape::Value;
    use simd_json_path::{Choice, Frame, Path, Segment, Selector, TooFewFrames};

    // How many values `$..price` selects, at most 30 levels down.
    pub(super) fn prices(value: &Value<'_, '_>) -> Result<usize, TooFewFrames> {
        let price = Segment {
            selectors: &[Selector::Choice(Choice::Name("price"))],
            is_descendant: true,
            steps: &[],
        };
        let path = Path {
            steps: &[],
            segments: &[price],
        };
        let mut frames = [Frame::closed(); 31];
        let mut count = 0usize;
        for item in path.select(value, &mut frames) {
            let _price = item?;
            count = count.saturating_add(1);
        }
        Ok(count)
    }
}

#[test]
fn examples_return_what_they_say(rt: HostRuntime) -> Tested {
    let mut input =
        *b"{\"orders\":[{\"items\":[{\"price\":5},{\"price\":7}]},{\"items\":[{\"price\":1}]}]}";
    let tape = to_tape(rt.alloc(), &mut input)?;
    assert!(rt; !tape.is_empty());
    let total = page::total(&rt, &tape.as_value()).expect(&rt, "a sum");
    assert_eq!(rt; total, Some(13));
    assert_eq!(rt; reading::prices(&tape.as_value())?, 3);
    Ok(())
}
