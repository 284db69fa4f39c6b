//! The numbers of a folder, as a first configuration has them.
use crate::failure::NewFailure;
use node_config::{FolderNumber, NumberRange, NumberRule};
use std::alloc::Global;

/// The numbers of a folder, as they are where they are left out, and what each is. O(1).
pub(crate) fn numbers_text(alloc: Global) -> Result<String, NewFailure> {
    let mut text = String::new(alloc);
    for number in FolderNumber::ALL {
        let NumberRule {
            key,
            range,
            sentence,
        } = number.rule();
        let NumberRange { low, high, default } = range;
        let value = match number.word_for(default) {
            Some(word) => format!(in alloc; "{word:?}")?,
            None => format!(in alloc; "{default}")?,
        };
        let lines = format!(in alloc; "# {sentence} {low} to {high}.\n#{key} = {value}\n")?;
        text.push_str(lines.as_str())?;
    }
    Ok(text)
}
