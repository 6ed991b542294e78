//! What follows if `lint` finds nothing about the hosts of links.

ghost use Rattle.std.specs.Prelude.{◌≡◌, ◌<◌, ◌++◌, ◌∷◌, ℕ, List, Some, true, false, length, get_or, []};
ghost use Rattle.std.specs.List.{list_any};
ghost use Rattle.text_model.specs.Texts.{Text};
ghost use Rattle.kev_read.specs.Pairs.{KeyValue};
ghost use Rattle.kbart_rows.specs.Cells.{Holdings};
ghost use Rattle.uri_grammar.specs.declared.parts.Part.{Part};
ghost use Rattle.uri_grammar.specs.declared.parts.Part.TheVariants.{Literal};
ghost use Rattle.uri_grammar.specs.Texts.{IsTemplate};
ghost use Rattle.menu.specs.WebLink.{is_web_link};
ghost use Rattle.rule_parser.specs.Meaning.{meaning};
ghost use Rattle.rule_parser.specs.Rules.{IsSound, RuleSet};
ghost use Rattle.rule_lint.specs.declared.place.Place.{Place};
ghost use Rattle.lint_laws.specs.RowLinks.{environment_of_cells, has_open_host, has_open_hosts, link_on_row};
ghost use Rattle.lint_laws.specs.RowLinks.{HasHostOfRow, IsHostOfRow, IsPlainHost, IsWebScheme};
ghost use Rattle.rule_lint.specs.HostStates.{ends_host, slash};

use row_laws::{rows_by_names, rows_shadow_requests};
use uri_grammar::laws::trees_are_sound;
use uri_template::laws::expansion_is_uri_text;

/// If `lint` prints nothing about the host of a link, the host of each web link that a row gives is the one that the
/// row gives for a request without pairs, made of the template's own text and the row's cells. It is not empty and has
/// no `@`, and a browser has the same host, whose triplets it then decodes.
///
/// The host is what follows the first `//`, up to `/`, `?` or `#`. Browsers skip further slashes after `//`, and take
/// what is before an `@` for a user. `meaning` says the same of the link that rules mean:
/// which rule is taken may depend on the request, and then the row decides the host of this rule.
pub fn no_request_sets_the_host()
    ensures link { (rules : RuleSet) (table : Holdings) (at : Place) (text : Text) (parts : List Part) (row : ℕ)
        (pairs : List KeyValue) → IsTemplate text parts → has_open_host rules table at parts ≡ false
        → row < length table.rows → is_web_link (link_on_row rules table parts row pairs) ≡ true
        → IsHostOfRow rules table parts row (link_on_row rules table parts row pairs) }
    ensures meaning { (rules : RuleSet) (table : Holdings) (row : ℕ) (pairs : List KeyValue) (link : Text)
        → IsSound rules → has_open_hosts rules table ≡ false → row < length table.rows
        → meaning rules (environment_of_cells rules table (get_or table.rows row []) pairs) ≡ Some link
        → is_web_link link ≡ true → HasHostOfRow rules table row pairs link }
{
    rows_shadow_requests();
    rows_by_names();
    trees_are_sound();
    expansion_is_uri_text();
}

/// `lint` prints nothing about the host of a template that begins with `http://HOST/` or `https://HOST/` as its own
/// text, whatever comes after it. HOST is not empty, and has no `@`, `/`, `?` or `#`.
pub fn fixed_hosts_have_no_finding()
    ensures { (rules : RuleSet) (table : Holdings) (at : Place) (scheme host more : Text) (parts : List Part)
        → IsWebScheme scheme → IsPlainHost host → list_any ends_host host ≡ false
        → has_open_host rules table at (Literal (scheme ++ (host ++ slash ∷ more)) ∷ parts) ≡ false }
{}
