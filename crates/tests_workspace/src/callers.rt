// What callers do with the library's types, which is proved and not run: they keep them beside what is lent, and send them to other threads.
use search::{Found, Problem};
use stores::Store;
use workspace::{Holdings, Template};

pub fn template_beside<'a>(lent: &'a mut u8, template: Template) -> Option<(&'a mut u8, Template)> {
    Some((lent, template))
}

pub fn found_beside<'a>(lent: &'a mut u8, found: Found) -> Option<(&'a mut u8, Found)> {
    Some((lent, found))
}

// Goes only with what is sent and shared.
fn check_crossing<T: Send + Sync>() {}

pub fn start_crosses<S: Store>() {
    check_crossing::<<Holdings<S> as Problem>::Start>()
}
