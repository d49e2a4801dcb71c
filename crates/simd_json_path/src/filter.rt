//! Filters (RFC 9535, section 2.3.5): tests of a node.
ghost use Rattle.std.specs.Prelude.{◌≡◌, option_and_then, option_map, IfOk};
ghost use Rattle.simd_json.specs.Viewed.{doc};
ghost use Rattle.simd_json_parts.specs.Views.{get};
ghost use Rattle.simd_json_path.specs.Filters.{holds, matched, selected_node, text_of};
ghost use Rattle.simd_json_path.specs.Nodes.{at_step, at_steps};
ghost use Rattle.simd_json_path.specs.Operands.{operand_value};
ghost use Rattle.simd_json_query.specs.Queries.{FilterText};

use crate::children::at_index;
use crate::filter_query::exists;
use crate::operand::{Operand, compares, operand_of, text_of};
use bumpalo::Bump;
use simd_json::tape::Value;
use simd_json_query::{Matcher, PathError, SingularQuery, Step, Test, read_filter};
use simd_json_regexp::{is_found, is_match};
use std::alloc::Allocator;

/// A test of a value by itself: `@` and `$` are both the value.
#[derive(Clone, Copy)]
pub struct Filter<'path> {
    /// The test.
    pub test: &'path Test<'path>,
}

impl<'path> Filter<'path> {
    ghost use Rattle.simd_json_path.specs.Filters.{holds};

    /// The test of a text, in an arena: a logical expression, as `@.price < 10 && @.isbn`.
    ///
    /// Returns where the text is no test, and what it lacks there, or `Memory` where an allocation
    /// fails. What filters may hold is as in [`Path::new`](crate::Path::new).
    pub fn new<A: Allocator>(arena: &'path Bump<A>, text: &str) -> Result<Filter<'path>, PathError>
        ensures { IfOk result (λ filter. FilterText filter.test.now text.now) }
    {
        let test = read_filter(arena, text)?;
        Ok(Filter { test })
    }

    /// Whether the value passes the test (section 2.3.5.2). It allocates nothing, and recurses no
    /// deeper than parentheses, `!` and `length` are nested in the test; and in a query of it, once
    /// for each of its segments.
    pub fn holds(&self, value: &Value<'_, '_>) -> bool
        ensures { result ≡ holds (doc value.now) self.now.test.now (doc value.now) }
    {
        holds(self.test, *value, *value)
    }
}

// Whether a node passes a test, in a query that is applied to `root`. It recurses over the test,
// but for the right operands of `&&` and `||`.
pub(crate) fn holds(test: &Test<'_>, root: Value<'_, '_>, node: Value<'_, '_>) -> bool
    ensures { result ≡ holds (doc root.entry) test.now (doc node.entry) }
{
    let mut last = test;
    'operands: loop {
        match last {
            Test::Exists(query) => return exists(query, root, node),
            Test::Compare(left, comparison, right) => {
                let left = operand_of(left, root, node);
                return compares(left, *comparison, operand_of(right, root, node));
            }
            Test::Matches(text, matcher) => {
                let text = operand_of(text, root, node);
                return matches(text, matcher, root, node);
            }
            Test::Not(inner) => return !holds(inner, root, node),
            Test::And(left, right) => {
                if !holds(left, root, node) {
                    return false;
                }
                last = right;
            }
            Test::Or(left, right) => {
                if holds(left, root, node) {
                    return true;
                }
                last = right;
            }
        }
    }
}

// Whether what is compared is a string that a regular expression matches.
fn matches(
    text: Operand<'_, '_, '_>,
    matcher: &Matcher<'_>,
    root: Value<'_, '_>,
    node: Value<'_, '_>,
) -> bool
    ensures { result ≡ matched (doc root.entry) matcher.now
        (option_and_then text_of (operand_value text.entry)) (doc node.entry) }
{
    let Some(text) = text_of(text) else {
        return false;
    };
    match matcher {
        Matcher::Literal(pattern) => pattern.is_match(text),
        Matcher::Match(pattern) => match text_of(operand_of(pattern, root, node)) {
            Some(pattern) => is_match(pattern, text),
            None => false,
        },
        Matcher::Search(pattern) => match text_of(operand_of(pattern, root, node)) {
            Some(pattern) => is_found(pattern, text),
            None => false,
        },
    }
}

// The node that a singular query selects.
pub(crate) fn selected_node<'tape, 'input>(
    query: &SingularQuery<'_>,
    root: Value<'tape, 'input>,
    node: Value<'tape, 'input>,
) -> Option<Value<'tape, 'input>>
    ensures { option_map doc result
        ≡ selected_node (doc root.entry) query.now (doc node.entry) }
{
    match query {
        SingularQuery::Relative(steps) => follow(steps, node),
        SingularQuery::Absolute(steps) => follow(steps, root),
    }
}

// The node to which steps lead.
#[inline(always)]
pub(crate) fn follow<'tape, 'input>(
    steps: &[Step<'_>],
    node: Value<'tape, 'input>,
) -> Option<Value<'tape, 'input>>
    ensures { option_map doc result ≡ at_steps steps.now (doc node.entry) }
{
    let Some((first, others)) = steps.split_first() else {
        return Some(node);
    };
    let reached = take(first, node)?;
    if others.is_empty() {
        return Some(reached);
    }
    Some(follow_others(others, reached)?)
}

// The same, not inlined.
#[inline(never)]
fn follow_others<'tape, 'input>(
    steps: &[Step<'_>],
    node: Value<'tape, 'input>,
) -> Option<Value<'tape, 'input>>
    ensures { option_map doc result ≡ at_steps steps.now (doc node.entry) }
{
    let mut reached = node;
    for step in steps {
        reached = take(step, reached)?;
    }
    Some(reached)
}

#[inline(always)]
fn take<'tape, 'input>(step: &Step<'_>, node: Value<'tape, 'input>) -> Option<Value<'tape, 'input>>
    ensures { option_map doc result ≡ at_step step.now (doc node.entry) }
{
    match step {
        Step::Name(name) => member(node, name),
        Step::Index(index) => Some(at_index(node, *index)?),
    }
}

// The value with a name. `find` is not inlined for long names, whose loop is set up at each call.
#[inline(always)]
pub(crate) fn member<'tape, 'input>(
    node: Value<'tape, 'input>,
    name: &str,
) -> Option<Value<'tape, 'input>>
    ensures { option_map doc result ≡ get name.now (doc node.entry) }
{
    let object = node.as_object()?;
    if name.len() > 16 {
        return Some(object.get(name)?);
    }
    object.find(name)
}
