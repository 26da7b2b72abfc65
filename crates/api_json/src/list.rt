//! JSON lists, written item by item.
ghost use Rattle.std.specs.Prelude.{◌≡◌, ◌++◌, ℕ, List, [], ◌∷◌, map, IfOk, OnOk, string_bytes};
ghost use Rattle.serde_json.specs.Data.{Data, array};
ghost use Rattle.serde_json.specs.View.{items_of};
ghost use Rattle.serde_json.specs.Written.{compact_text};
ghost use Rattle.api_json.specs.List.{IsListAfter};

use document_json::put_comma;
use std::alloc::{AllocError, Global};

/// A list whose items are in the text as soon as they are pushed.
#[derive(Drop)]
pub(crate) struct ListText {
    text: String,
    has_items: bool,
}

impl ListText {
    /// A list with no item yet, behind what is in the text.
    pub(crate) fn after(text: String) -> Result<ListText, AllocError>
        ensures { IfOk result (λ list. IsListAfter (string_bytes text) list []) }
    {
        let mut text = text;
        text.push_str("[")?;
        Ok(ListText {
            text,
            has_items: false,
        })
    }

    /// Writes the text of one more item.
    pub(crate) fn push_text(&mut self, item: &str) -> Result<(), AllocError>
        ensures { OnOk result ((before : List ℕ) (items more : List Data) (d : Data)
            → IsListAfter before self.old items → item.now ≡ compact_text d → more ≡ items ++ d ∷ []
            → IsListAfter before self.new more) }
    {
        put_comma(&mut self.text, self.has_items)?;
        self.text.push_str(item)?;
        self.has_items = true;
        Ok(())
    }

    /// The text with the whole list.
    pub(crate) fn finish(self) -> Result<String, AllocError>
        ensures { IfOk result (λ text. (before : List ℕ) (items : List Data)
            → IsListAfter before self items
            → string_bytes text ≡ before ++ compact_text (array (items_of items))) }
    {
        let mut text = self.text;
        text.push_str("]")?;
        Ok(text)
    }
}

/// Writes a list behind a text: of each item the text that stands for it.
///
/// # Errors
///
/// Fails also where an item's text does.
pub fn append_list<X, F: Fn(&X) -> Result<String, AllocError> + Drop>(
    text: String,
    items: &[X],
    item_text: F,
) -> Result<String, AllocError>
    requires callable { F.IsAlwaysCallable item_text }
    ensures { (of : X → Data)
        → ((item : _) (told : _) → F.post item_text item told
        → IfOk told (λ t. string_bytes t ≡ compact_text (of item.now)))
        → IfOk result (λ longer. string_bytes longer
        ≡ string_bytes text ++ compact_text (array (items_of (map of items.now)))) }
{
    let mut list = ListText::after(text)?;
    for item in items {
        let told = item_text(item)?;
        list.push_text(told.as_str())?;
    }
    list.finish()
}
