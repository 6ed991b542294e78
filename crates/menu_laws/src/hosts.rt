//! Why no request can lead a reader to another host.

ghost use Rattle.std.specs.Prelude.{◌≡◌, ℕ, List, All, map};
ghost use Rattle.std.specs.List.{AllZip};
ghost use Rattle.text_model.specs.Texts.{Text};
ghost use Rattle.kev_read.specs.Pairs.{KeyValue};
ghost use Rattle.menu.specs.Links.{links};
ghost use Rattle.menu.specs.Printed.{text};
ghost use Rattle.menu.specs.declared.entry.Resolution.TheVariants.{Link};
ghost use Rattle.registry.specs.Entries.{menu_of, resolution_of};
ghost use Rattle.registry.specs.Targets.{IsRegistry};
ghost use Rattle.lint_laws.specs.RowLinks.{HasHostOfRow};
ghost use Rattle.rule_menus.specs.RuleMenus.{RuleTarget, HasSoundRules, coded};
ghost use Rattle.menu_laws.specs.Hosts.{HasClosedHosts, HasHostOfFirstRow, HasHostOfItsRow};
ghost use Rattle.menu_laws.specs.Lines.{links_in_text};

use crate::text::text_is_read_as_its_links;
use lint_laws::no_request_sets_the_host;
use rule_menus::laws::first_web_link_is_chosen;

/// No open redirect. If `lint` finds nothing about hosts in the rules and the table of a target, then for every request
/// the target's link, if the menu has one, has a host that is not empty and has no `@`. It is the one that the rule
/// gives on the row for a request without pairs, so the row alone decides it; which rule is taken may depend on the
/// request. The row is in the table, and the rule gives the link on it. `text` says it of the links that a reader cuts
/// out of the plain text: the row is the first that matches the request and on which the rules mean a web link.
///
/// The host is the text between `//` and the next `/`, `?` or `#`. A browser has the same host, whose triplets it
/// decodes. The law is false if the lines `a request can set the host by NAME` do not count.
pub fn no_open_redirect()
    ensures target { (target : RuleTarget) (pairs : List KeyValue) (row : ℕ) (link : Text) → HasSoundRules target
        → HasClosedHosts target → resolution_of (coded target) pairs ≡ Link row link
        → HasHostOfRow target.rules target.table row pairs link }
    ensures menu { (targets : List RuleTarget) (pairs : List KeyValue) → All HasSoundRules targets
        → AllZip (HasHostOfItsRow pairs) targets (menu_of (map coded targets) pairs) }
    ensures links { (targets : List RuleTarget) (pairs : List KeyValue) → All HasSoundRules targets
        → All HasClosedHosts targets
        → All (HasHostOfFirstRow targets pairs) (links (menu_of (map coded targets) pairs)) }
    ensures text { (targets : List RuleTarget) (pairs : List KeyValue) → All HasSoundRules targets
        → All HasClosedHosts targets → IsRegistry (map coded targets)
        → All (HasHostOfFirstRow targets pairs) (links_in_text (text (menu_of (map coded targets) pairs))) }
{
    first_web_link_is_chosen();
    no_request_sets_the_host();
    text_is_read_as_its_links();
}
