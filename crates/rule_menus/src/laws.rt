//! The menu that the rules of the targets give is the menu that their codes give. These functions have empty bodies;
//! each contract is a theorem.

ghost use Rattle.std.specs.Prelude.{◌≡◌, ◌↔◌, ℕ, Bool, List, None, All, map};
ghost use Rattle.std.specs.List.{AllZip};
ghost use Rattle.text_model.specs.Texts.{Text};
ghost use Rattle.code_model.specs.Code.{Code};
ghost use Rattle.code_file.specs.Grammar.{IsCodeFile};
ghost use Rattle.kev_read.specs.Pairs.{KeyValue, pairs_of};
ghost use Rattle.kev_read.specs.Refusal.{refusal};
ghost use Rattle.menu.specs.Links.{is_link, link_under};
ghost use Rattle.menu.specs.Printed.{html, report, resolution_text, text};
ghost use Rattle.menu.specs.declared.entry.Resolution.{Resolution};
ghost use Rattle.menu.specs.declared.entry.Resolution.TheVariants.{Link};
ghost use Rattle.registry.specs.Entries.{menu_of, resolution_of};
ghost use Rattle.registry.specs.Targets.{TargetValue};
ghost use Rattle.http_request.specs.declared.route.Page.{Page};
ghost use Rattle.http_request.specs.Routes.{IsRouted, Menu};
ghost use Rattle.http_exchange.specs.Replies.{printed};
ghost use Rattle.http_exchange.specs.RouteReplies.{page_text};
ghost use Rattle.rule_parser.specs.Rules.{RuleSet};
ghost use Rattle.rule_parser.specs.Grammar.{IsRuleText};
ghost use Rattle.rule_parser.specs.Meaning.{meaning};
ghost use Rattle.compiler_model.specs.Compiled.{code_of};
ghost use Rattle.rule_explanation.specs.Explanation.{explanation};
ghost use Rattle.rule_explanation.specs.Rows.{has_web_link};
ghost use Rattle.rule_menus.specs.RuleMenus.{RuleTarget, HasSoundRules, coded, menu_by_rules, resolution_by_rules};
ghost use Rattle.rule_menus.specs.RuleMenus.{environment_by_code, environment_by_rules};
ghost use Rattle.rule_menus.specs.FirstLinks.{IsFirstWebLink};
ghost use Rattle.rule_menus.specs.Explanations.{EndAs, IsExplained, AreTriedRowsWithinBudget, lines_of};
ghost use Rattle.rule_menus.specs.RuleFiles.{TargetFiles, AreOfFiles};
ghost use Rattle.rule_menus.specs.CodeFiles.{IsCodeFileOf, AreReadFrom};
ghost use Rattle.rule_menus.specs.Replies.{HasReply, page_by_rules};

use code_file::laws::{code_has_one_file, file_has_one_code};
use compiler_model::laws::{code_gives_what_rules_mean, compiled_code_is_accepted};
use http_exchange::laws::replies_follow_menus;
use http_request::laws::one_route;
use machine_laws::course_is_decided;
use row_laws::{requests_by_keys, rows_shadow_requests};
use rule_explanation::laws::printed_rule_gives_the_meaning;
use rule_parser::laws::one_rule_set;
use uri_grammar::laws::trees_are_sound;
use uri_template::laws::expansion_is_uri_text;

/// The menu of a registry whose codes are the codes of sound rules is the menu that the rules give, whatever the
/// request. The same holds for the resolution of each target, and for the menu's plain text, report and page.
pub fn menus_are_what_rules_mean()
    ensures resolution { (target : RuleTarget) (pairs : List KeyValue) → HasSoundRules target
        → resolution_of (coded target) pairs ≡ resolution_by_rules target pairs }
    ensures menu { (targets : List RuleTarget) (pairs : List KeyValue) → All HasSoundRules targets
        → menu_of (map coded targets) pairs ≡ menu_by_rules targets pairs }
    ensures text { (targets : List RuleTarget) (pairs : List KeyValue) → All HasSoundRules targets
        → text (menu_of (map coded targets) pairs) ≡ text (menu_by_rules targets pairs) }
    ensures report { (targets : List RuleTarget) (pairs : List KeyValue) → All HasSoundRules targets
        → report (menu_of (map coded targets) pairs) ≡ report (menu_by_rules targets pairs) }
    ensures html { (targets : List RuleTarget) (pairs : List KeyValue) → All HasSoundRules targets
        → html (menu_of (map coded targets) pairs) ≡ html (menu_by_rules targets pairs) }
{
    unused_lists_change_no_link();
    code_gives_what_rules_mean();
    course_is_decided();
}

/// A target of such a registry has a link exactly if its rules give a web link on a matching row, and then it has the
/// link of the first such row. A row on which the code might print too many bytes does not count.
pub fn first_web_link_is_chosen()
    ensures { (target : RuleTarget) (pairs : List KeyValue) (row : ℕ) (link : Text) → HasSoundRules target
        → (resolution_of (coded target) pairs ≡ Link row link) ↔ IsFirstWebLink target pairs row link }
{
    menus_are_what_rules_mean();
}

/// The explanation of a target agrees with its entry in a menu, if the code is within its budget on every row that is
/// tried. It has a web link exactly where the entry is a link. Its last lines name the row and the link of the entry,
/// or say why there is none.
pub fn explanations_agree_with_menus()
    ensures found { (target : RuleTarget) (pairs : List KeyValue)
        → HasSoundRules target → AreTriedRowsWithinBudget pairs target
        → has_web_link target.rules target.table pairs ≡ is_link (resolution_of (coded target) pairs) }
    ensures last { (target : RuleTarget) (pairs : List KeyValue)
        → HasSoundRules target → AreTriedRowsWithinBudget pairs target
        → EndAs (lines_of (explanation target.rules target.table pairs)) (resolution_of (coded target) pairs) }
    ensures menu { (targets : List RuleTarget) (pairs : List KeyValue)
        → All HasSoundRules targets → All (AreTriedRowsWithinBudget pairs) targets
        → AllZip (IsExplained pairs) targets (menu_of (map coded targets) pairs) }
{
    menus_are_what_rules_mean();
    printed_rule_gives_the_meaning();
    trees_are_sound();
    expansion_is_uri_text();
}

/// Two entries with which the same last lines agree have the same reason in the report and the same link.
pub fn last_lines_say_one_entry()
    ensures report { (lines : List Text) (resolution other : Resolution)
        → EndAs lines resolution → EndAs lines other → resolution_text resolution ≡ resolution_text other }
    ensures link { (lines : List Text) (name : Text) (resolution other : Resolution)
        → EndAs lines resolution → EndAs lines other → link_under name resolution ≡ link_under name other }
{}

/// Rules mean the same in both environments of a row and a request: the one with the lists of the rules, and the one
/// with the lists of the code. The two can differ: a list that the rules declare but do not use is not a name of the
/// code, so in the code's environment the request has a text under it.
pub fn unused_lists_change_no_link()
    ensures { (target : RuleTarget) (pairs : List KeyValue) (row : ℕ) → HasSoundRules target
        → meaning target.rules (environment_by_code target pairs row)
        ≡ meaning target.rules (environment_by_rules target pairs row) }
{
    code_gives_what_rules_mean();
    compiled_code_is_accepted();
    rows_shadow_requests();
    requests_by_keys();
}

/// A menu is determined by bytes: registries with the same names, rule texts and tables have the same menu, which is
/// the one that the rules give. The keys of the tables' look-ups do not matter.
pub fn files_have_one_menu()
    ensures one { (files : List TargetFiles) (targets others : List RuleTarget) (pairs : List KeyValue)
        → AreOfFiles files targets → AreOfFiles files others
        → menu_of (map coded targets) pairs ≡ menu_of (map coded others) pairs }
    ensures meant { (files : List TargetFiles) (targets : List RuleTarget) (pairs : List KeyValue)
        → AreOfFiles files targets → menu_of (map coded targets) pairs ≡ menu_by_rules targets pairs }
    ensures pages { (files : List TargetFiles) (targets others : List RuleTarget) (pairs : List KeyValue) (page : Page)
        → AreOfFiles files targets → AreOfFiles files others
        → page_text page (menu_of (map coded targets) pairs) ≡ page_text page (menu_of (map coded others) pairs) }
{
    menus_are_what_rules_mean();
    one_rule_set();
}

/// A rule text has at most one code file, and reading this file gives the code of the text's rules.
pub fn rule_text_has_one_code()
    ensures file { (text file other : Text) → IsCodeFileOf text file → IsCodeFileOf text other → file ≡ other }
    ensures read { (text file : Text) (rules : RuleSet) (code : Code)
        → IsRuleText text rules → IsCodeFileOf text file → IsCodeFile file code → code ≡ code_of rules }
{
    one_rule_set();
    file_has_one_code();
    code_has_one_file();
}

/// For targets whose codes are read from the files of compiled rule texts, too, a menu is determined by the bytes of
/// the rule texts and the tables. It is the one that the rules give, and so are its page of HTML, its plain text and
/// its report.
pub fn compiled_files_have_one_menu()
    ensures one { (files : List TargetFiles) (targets others : List TargetValue) (pairs : List KeyValue)
        → AreReadFrom files targets → AreReadFrom files others → menu_of targets pairs ≡ menu_of others pairs }
    ensures meant { (files : List TargetFiles) (targets : List TargetValue)
        (by_rules : List RuleTarget) (pairs : List KeyValue)
        → AreReadFrom files targets → AreOfFiles files by_rules → menu_of targets pairs ≡ menu_by_rules by_rules pairs }
    ensures pages { (files : List TargetFiles) (targets : List TargetValue)
        (by_rules : List RuleTarget) (pairs : List KeyValue) (page : Page)
        → AreReadFrom files targets → AreOfFiles files by_rules
        → page_text page (menu_of targets pairs) ≡ page_text page (menu_by_rules by_rules pairs) }
{
    files_have_one_menu();
    file_has_one_code();
}

/// The reply of the HTTP front is determined by the bytes of the rule texts, the tables and the request: the status,
/// the head and the body are the same whenever no allocation fails. A request for a page gets that page of the menu
/// that the rules give.
pub fn compiled_files_have_one_reply()
    ensures one { (files : List TargetFiles) (targets others : List TargetValue)
        (request : List ℕ) (status other : ℕ) (reply another : List ℕ)
        → AreReadFrom files targets → AreReadFrom files others
        → HasReply targets request status reply → HasReply others request other another
        → (status ≡ other) × (reply ≡ another) }
    ensures page { (files : List TargetFiles) (targets : List TargetValue) (by_rules : List RuleTarget)
        (request query : List ℕ) (page : Page) (without_body : Bool) (status : ℕ) (reply : List ℕ)
        → AreReadFrom files targets → AreOfFiles files by_rules
        → IsRouted request (Menu page query) without_body → refusal query ≡ None → HasReply targets request status reply
        → (status ≡ 200) × (reply ≡ printed (page_by_rules by_rules page (pairs_of query)) without_body) }
{
    compiled_files_have_one_menu();
    one_route();
    replies_follow_menus();
}
