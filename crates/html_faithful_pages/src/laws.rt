//! The laws of faithful and of plain pages.
ghost use Rattle.html_faithful_pages.specs.Pages.{AreFaithfulPagesReadBack, ArePlainPagesReadBack};

use html_faithful_plain::laws::plain_documents_are_faithful;

/// A faithful document, in the quirks mode that its written text asks for, is read back.
pub fn faithful_pages_are_read_back()
    ensures { AreFaithfulPagesReadBack }
{}

/// So is a plain one, by html5ever's rules and by the Standard's.
pub fn plain_pages_are_read_back()
    ensures { ArePlainPagesReadBack }
{
    plain_documents_are_faithful();
}
