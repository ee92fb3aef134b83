//! What can be shown.
use crate::page::Page;

/// What can be shown as a person reads it.
pub trait Show {
    /// Puts it at the end of the page.
    fn show(&self, page: &mut Page);
}
