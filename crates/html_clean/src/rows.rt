//! Worked rows: what the definitions give for each is computed by the check.
ghost use Rattle.html_clean.specs.PieceRows.{ArePieceRowsRead};
ghost use Rattle.html_clean.specs.Rows.{ArePictureRows, ArePrefixRows, AreProxyRows, AreUrlRows, IsMeasureRow};

/// The kinds of URLs.
pub fn url_rows()
    ensures { AreUrlRows }
{}

/// Which URLs are the data of pictures.
#[tactic(auto, unfolding(crate::specs::Pictures::is_picture_data, crate::specs::Rows::ArePictureRows))]
pub fn picture_rows()
    ensures { ArePictureRows }
{}

/// Names with a prefix.
pub fn prefix_rows()
    ensures { ArePrefixRows }
{}

/// URLs through a proxy.
pub fn proxy_rows()
    ensures { AreProxyRows }
{}

/// Elements, measured.
pub fn measure_row()
    ensures { IsMeasureRow }
{}

/// Written pieces, read as the rows say.
pub fn piece_rows()
    ensures { ArePieceRowsRead }
{}
