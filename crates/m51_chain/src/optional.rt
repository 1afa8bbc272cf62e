//! The content of a file that an option names.
ghost use Rattle.std.specs.Prelude.{◌≡◌};
ghost use Rattle.std.specs.Option.{option_copied};
ghost use Rattle.m51_chain.specs.Optional.{content_if};

use m51_args::FileName;
use m51_cells::Bytes;

// The first of these contents, where the option names a file.
pub(crate) fn content_if<'a>(name: &Option<FileName>, contents: &'a [Bytes]) -> Option<&'a Bytes>
    ensures { option_copied result ≡ content_if name.now contents.now }
{
    match name {
        Some(_) => contents.first(),
        None => None,
    }
}
