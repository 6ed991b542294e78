//! How a script reads the plain text of a menu.

ghost use Rattle.std.specs.Prelude.{◌≡◌, List};
ghost use Rattle.kev_read.specs.Pairs.{KeyValue};
ghost use Rattle.menu.specs.Links.{links};
ghost use Rattle.menu.specs.PageReading.{HasSoundLinks};
ghost use Rattle.menu.specs.Printed.{text};
ghost use Rattle.menu.specs.Entries.{MenuEntry};
ghost use Rattle.registry.specs.Entries.{menu_of};
ghost use Rattle.registry.specs.Targets.{TargetValue, IsRegistry};
ghost use Rattle.menu_laws.specs.Lines.{links_in_text};

use registry::laws::menus_are_sound;

/// The plain text of a menu, cut into lines and each line at its first tab, gives exactly the names and the links of
/// the menu, in their order: for each menu whose names are names of targets and whose links are URI text, as those of
/// every registry are.
///
/// It is false if each line is cut at its first space. A reason why a target has no link is in the report alone.
pub fn text_is_read_as_its_links()
    ensures menu { (menu : List MenuEntry) → HasSoundLinks menu → links_in_text (text menu) ≡ links menu }
    ensures registry { (targets : List TargetValue) (pairs : List KeyValue) → IsRegistry targets
        → links_in_text (text (menu_of targets pairs)) ≡ links (menu_of targets pairs) }
{
    menus_are_sound();
}
