//! The words before what is listed.
ghost use Rattle.std.specs.Prelude.{◌≡◌};
ghost use Rattle.gl_report.specs.Text.{all_word, one_word};

use gl_findings::Listing;

/// The word before the number of one that is listed.
pub(crate) fn one_word(listing: Listing) -> &'static [u8]
    ensures { result.now ≡ one_word listing }
{
    match listing {
        Listing::Cycles => b"cycle ",
        Listing::Findings => b"finding ",
    }
}

/// The word before how many are listed.
pub(crate) fn all_word(listing: Listing) -> &'static [u8]
    ensures { result.now ≡ all_word listing }
{
    match listing {
        Listing::Cycles => b"cycles: ",
        Listing::Findings => b"findings: ",
    }
}
