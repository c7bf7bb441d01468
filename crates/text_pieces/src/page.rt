//! The page that benchmarks read.

use std::alloc::{AllocError, Global};

/// What the page repeats: text with references and a letter of two bytes, tags with attributes, a comment, a script and
/// a table.
const BLOCK: &str = "<div class=\"entry wide\" id='first'>\n\
<h2>Fish &amp; chips at the Caf\u{e9} du Parc</h2>\n\
<p>A plain paragraph of text, long enough to look like what people write on pages, with a caf\u{e9} in it, \
a comparison as 3 &lt; 4 and 5 &gt; 2, and a word in <em lang=\"fr\" title=\"d\u{e9}j\u{e0} vu\">d\u{e9}j\u{e0} vu</em>.\n\
It goes on for a second line, which has a <a href=\"https://example.org/?a=1&amp;b=2\" rel=next>link</a> \
and then ends without much ado, as most paragraphs do.</p>\n\
<!-- a comment, which nobody sees - or so they say -->\n\
<script type=\"text/javascript\" async>\n  for (var i = 0; i < 10; i++) { if (i<5 && i > 2) document.title = \"<b>\" + i; }\n</script>\n\
<table><tr class=row><td width=10 align=left>1,024</td><td>caf\u{e9}s&nbsp;&#8364;</td></tr></table>\n\
<img src=\"a.png\" alt=\"a picture\"/><br>\n</div>\n";

/// A page of as many blocks as have so many bytes, one at least.
pub fn page_of(alloc: Global, bytes: usize) -> Result<String, AllocError> {
    BLOCK.repeat(alloc, (bytes / BLOCK.len()).max(1))
}
