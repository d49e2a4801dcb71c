// How many frames suffice, and what comes with fewer.
use crate::tests::{ALL, Tested, child, descendant, items};
use simd_json_path::{Path, TooFewFrames};

#[test]
fn a_frame_for_each_segment_suffices(rt: HostRuntime) -> Tested {
    let all = [ALL];
    let segments = [child(&all), descendant(&all)];
    let path = Path {
        steps: &[],
        segments: &segments,
    };
    assert_eq!(rt; path.frames(), 2);
    assert_eq!(rt;
        items(&rt, "[[1,2],3,{\"a\":[4]}]", &segments, 2).as_str(),
        "vvvv"
    );
    assert_eq!(rt;
        items(&rt, "[[1,2],3,{\"a\":[4]}]", &segments, 3).as_str(),
        "vvvv"
    );
    let beneath = [descendant(&all)];
    assert_eq!(rt; items(&rt, "[[[[1]]],[2]]", &beneath, 1).as_str(), "vvvvvv");
    Ok(())
}

#[test]
fn with_fewer_the_only_item_is_an_error(rt: HostRuntime) -> Tested {
    let all = [ALL];
    let two = [child(&all), child(&all)];
    assert_eq!(rt; items(&rt, "[[1,2],3,{\"a\":4}]", &two, 2).as_str(), "vvv");
    assert_eq!(rt; items(&rt, "[[1,2],3,{\"a\":4}]", &two, 1).as_str(), "-");
    assert_eq!(rt; items(&rt, "[[1,2],3,{\"a\":4}]", &two, 0).as_str(), "-");
    assert_eq!(rt; items(&rt, "3", &two, 0).as_str(), "-");
    assert_eq!(rt; items(&rt, "[3]", &[], 0).as_str(), "v");
    assert_eq!(rt; items(&rt, "[3]", &[descendant(&all)], 0).as_str(), "-");
    Ok(())
}

#[test]
fn the_error_has_words(rt: HostRuntime) -> Tested {
    assert_eq!(rt;
        TooFewFrames.to_string(rt.alloc())?.as_str(),
        "too few frames"
    );
    Ok(())
}
