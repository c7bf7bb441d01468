//! Laws of normalising. Each function's contract is one law.
ghost use Rattle.html_normal.specs.Laws.{AreNormalBytesKept, ArePlainForestsNormal};

/// Bytes that are normal are read as the document that they are normal with, are written as they are, and are reported plain and not in
/// quirks mode, in whatever pieces they come and however errors are told; no error is counted, unless they have control characters or
/// noncharacters and the tokenizer tells these. What [`crate::normalise`] writes of a document that it reports plain is normal with that
/// document.
pub fn normal_bytes_are_kept()
    ensures { AreNormalBytesKept }
{}

/// What any forest is written as that is plain, whoever built it, is normal with that forest: by each table of references that reads what
/// escaping writes, it is read again as that document, without an error, and written as the same bytes.
pub fn plain_forests_are_normal()
    ensures { ArePlainForestsNormal }
{}
