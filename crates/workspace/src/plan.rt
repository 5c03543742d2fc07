// What replacing an occurrence takes.
use super::named::Named;
use super::posed::Posed;

// An occurrence, and its template turned and extended.
#[derive(Clone, Copy)]
pub(crate) struct Plan {
    pub(crate) named: Named,
    pub(crate) extended: Posed,
}
