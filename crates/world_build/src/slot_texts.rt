// What the text of an edit says.
ghost use Rattle.std.specs.Prelude.{◌≡◌, codes};
ghost use Rattle.world_build.specs.SlotTexts.{slot_text};
ghost use Rattle.world_build.specs.SlotTextRow.{row_names, row_items, row_slot};

/// A worked text of an edit, with a string, a path, a block, and a local of each form.
pub fn worked_slot()
    ensures { slot_text row_names (codes "hi") row_items ≡ row_slot }
{}
