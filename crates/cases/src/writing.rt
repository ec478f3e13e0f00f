// Words written for a bundle, and the listing of a case's code. A line of a listing has at most 55 bytes for each word, so that the
// listing of the longest code fits the report's buffer.
use crate::Case;
use case_kept::extent::extents_of;
use encoder::Written;
use listing::{put_list, put_written, told};
use text::page::Page;

pub(crate) fn put_words(page: &mut Page, w: Written) {
    page.put(b"write");
    put_written(page, told(w));
    page.put_byte(b'\n');
}

impl Case {
    pub(crate) fn list(&self, page: &mut Page) {
        let e = extents_of(&self.kept);
        let n = e.code.min(65536);
        put_list(page, &self.code[0..n]);
    }
}
