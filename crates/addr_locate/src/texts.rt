// The text at a place of a list.
ghost use Rattle.std.specs.Prelude.{◌≡◌, slice_get};
ghost use Rattle.std.specs.Option.{option_copied};

use addr_base::Text;

/// The text at the place, if there is one.
pub(crate) fn text_at(texts: &[Text], place: u32) -> Option<&str>
    ensures { option_copied result ≡ slice_get texts.now place }
{
    match texts.get(place as usize) {
        None => None,
        Some(text) => Some(text.as_str()),
    }
}
