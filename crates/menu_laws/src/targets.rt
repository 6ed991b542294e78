//! What one target can change of the others.

ghost use Rattle.std.specs.Prelude.{◌≡◌, ◌≤◌, Bool, List, [], ◌∷◌, length};
ghost use Rattle.std.specs.List.{flat_map};
ghost use Rattle.std.specs.Str.Lines.{lines};
ghost use Rattle.text_model.specs.Texts.{Text};
ghost use Rattle.kev_read.specs.Pairs.{KeyValue};
ghost use Rattle.menu.specs.Links.{links};
ghost use Rattle.menu.specs.PageReading.{Token, IsReadAsTokens, links_in};
ghost use Rattle.menu.specs.Printed.{html, report, text};
ghost use Rattle.registry.specs.Entries.{menu_of};
ghost use Rattle.registry.specs.Targets.{TargetValue, IsRegistry};
ghost use Rattle.http_request.specs.declared.route.Page.TheVariants as page;
ghost use Rattle.http_exchange.specs.RouteReplies.{menu_reply};
ghost use Rattle.menu_laws.specs.Shares.{lines_under, links_under, targets_under};
ghost use Rattle.menu_laws.specs.Shares.{other_lines, other_links, other_targets, own_lines};

use menu::laws::pages_are_read_as_their_links;
use registry::laws::menus_are_sound;

/// Whichever targets of a registry are meant, their lines in its plain text are all lines of the text of the registry
/// that has them alone, in their order; and so are their lines in the report, and their links in the page. The menu is
/// that of each target alone, one after another, and so are its links, its text and its report: in another order the
/// same targets have the same lines, in that order.
pub fn targets_have_their_shares()
    ensures menu { (targets : List TargetValue) (pairs : List KeyValue)
        → menu_of targets pairs ≡ flat_map (λ target. menu_of (target ∷ []) pairs) targets }
    ensures each_link { (targets : List TargetValue) (pairs : List KeyValue)
        → links (menu_of targets pairs) ≡ flat_map (λ target. links (menu_of (target ∷ []) pairs)) targets }
    ensures each_text { (targets : List TargetValue) (pairs : List KeyValue)
        → text (menu_of targets pairs) ≡ flat_map (λ target. text (menu_of (target ∷ []) pairs)) targets }
    ensures each_report { (targets : List TargetValue) (pairs : List KeyValue)
        → report (menu_of targets pairs) ≡ flat_map (λ target. report (menu_of (target ∷ []) pairs)) targets }
    ensures text { (targets : List TargetValue) (pairs : List KeyValue) (test : Text → Bool) → IsRegistry targets
        → lines_under test (text (menu_of targets pairs)) ≡ lines (text (menu_of (targets_under test targets) pairs)) }
    ensures report { (targets : List TargetValue) (pairs : List KeyValue) (test : Text → Bool) → IsRegistry targets
        → lines_under test (report (menu_of targets pairs))
        ≡ lines (report (menu_of (targets_under test targets) pairs)) }
    ensures page { (targets : List TargetValue) (pairs : List KeyValue) (test : Text → Bool) (tokens : List Token)
        → IsRegistry targets → IsReadAsTokens (html (menu_of targets pairs)) tokens
        → links_under test (links_in tokens) ≡ links (menu_of (targets_under test targets) pairs) }
{
    menus_are_sound();
    pages_are_read_as_their_links();
}

/// Targets are independent. If two registries have the same targets except under one name, whoever wrote the code of
/// that name's target and whether both have one, then for every request their texts, reports and pages are the same
/// except under that name. So are the bodies of the replies for `/openurl.txt` and `/report`, which are these texts.
/// Under each name the text has at most one line, and so has the report.
///
/// It is false if the lines under the name count too. What couples targets is outside a menu: one file that is rejected
/// stops `load_registry`, and memory can run out.
pub fn targets_are_independent()
    ensures text { (old new : List TargetValue) (name : Text) (pairs : List KeyValue) → IsRegistry old → IsRegistry new
        → other_targets name old ≡ other_targets name new
        → other_lines name (menu_reply (menu_of old) page.Text pairs).body
        ≡ other_lines name (menu_reply (menu_of new) page.Text pairs).body }
    ensures report { (old new : List TargetValue) (name : Text) (pairs : List KeyValue) → IsRegistry old
        → IsRegistry new → other_targets name old ≡ other_targets name new
        → other_lines name (menu_reply (menu_of old) page.Report pairs).body
        ≡ other_lines name (menu_reply (menu_of new) page.Report pairs).body }
    ensures page { (old new : List TargetValue) (name : Text) (pairs : List KeyValue) (tokens others : List Token)
        → IsRegistry old → IsRegistry new → other_targets name old ≡ other_targets name new
        → IsReadAsTokens (menu_reply (menu_of old) page.Html pairs).body tokens
        → IsReadAsTokens (menu_reply (menu_of new) page.Html pairs).body others
        → other_links name (links_in tokens) ≡ other_links name (links_in others) }
    ensures own { (targets : List TargetValue) (name : Text) (pairs : List KeyValue) → IsRegistry targets
        → length (own_lines name (text (menu_of targets pairs))) ≤ 1 }
    ensures own_report { (targets : List TargetValue) (name : Text) (pairs : List KeyValue) → IsRegistry targets
        → length (own_lines name (report (menu_of targets pairs))) ≤ 1 }
{
    targets_have_their_shares();
    menus_are_sound();
}
