// What is reported of an operation that does bundles: how it ended, and what it counted.
use case_report::form::say;
use resume::Reply;
use text::page::Page;

// An operation by its name, and how it ended.
pub(crate) fn put_reply(page: &mut Page, operation: &str, r: Reply) {
    page.put(operation.as_bytes());
    match r {
        Reply::Done => page.put(b" done"),
        Reply::Ended => page.put(b" ended"),
        Reply::Spent => page.put(b" spent"),
        Reply::Refused(refusal) => say(page, b" refused %", &[refusal.number() as u64]),
    }
}

// The six counts; those of the method cache stand in the report of a case that has one.
pub(crate) fn put_counts(page: &mut Page, counts: &[u64], method: bool) {
    if method {
        say(
            page,
            b" bundles % cycles % spilled % filled % misses % fetched %\n",
            counts,
        );
    } else {
        say(page, b" bundles % cycles % spilled % filled %\n", counts);
    }
}
