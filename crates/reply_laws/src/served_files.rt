//! What follows from the files of a service.

ghost use Rattle.std.specs.Prelude.{◌≡◌, ◌≢◌, ◌≤◌, ℕ, Bool, List, None, Ok, Some, length};
ghost use Rattle.text_model.specs.Texts.{Text};
ghost use Rattle.kev_read.specs.Pairs.{pairs_of};
ghost use Rattle.kev_read.specs.Refusal.{refusal};
ghost use Rattle.kbart_rows.specs.declared.keys.Keys.{Keys};
ghost use Rattle.menu_source.specs.Menus.{Menus};
ghost use Rattle.registry.specs.Entries.{menu_of};
ghost use Rattle.registry.specs.Targets.{TargetValue};
ghost use Rattle.files.specs.Found.{Disk};
ghost use Rattle.registry_file.specs.Loading.{AreTargetsOf};
ghost use Rattle.http_streams.specs.Streams.{AreFresh, InputState, OutputState};
ghost use Rattle.http_streams.specs.declared.read.TheConstants.{MAX_HEAD_BYTES};
ghost use Rattle.http_request.specs.Routes.{IsRouted, Menu};
ghost use Rattle.http_request.specs.declared.route.Page.{Page};
ghost use Rattle.http_exchange.specs.Exchange.{IsExchange};
ghost use Rattle.http_exchange.specs.Replies.{printed, unavailable};
ghost use Rattle.http_exchange.specs.declared.exchange.Served.TheVariants.{Replied};
ghost use Rattle.rule_menus.specs.CodeFiles.{AreReadFrom};
ghost use Rattle.rule_menus.specs.Replies.{page_by_rules};
ghost use Rattle.rule_menus.specs.RuleFiles.{TargetFiles, AreOfFiles};
ghost use Rattle.rule_menus.specs.RuleMenus.{RuleTarget};
ghost use Rattle.reply_laws.specs.Files.{AreLinesOf};
ghost use Rattle.reply_laws.specs.Peers.{Gets};

use http_request::laws::{
    a_head_ends_where_it_is_closed, one_route, what_follows_a_head_is_ignored,
};
use rule_menus::laws::compiled_files_have_one_reply;

/// From files to replies. If the code files that a registry file names are those of rule texts, a peer whose request is
/// for a page gets that page of the menu by those rules and tables, whatever the pieces, and nothing else: unless
/// memory runs out, and it gets a reply 503.
///
/// `read` links it with the contract of `load_registry`, and `served` with those of `serve_on` and `serve`, each of
/// whose connections is fresh and has such an exchange. A head longer than is read of it gets a reply 431.
///
/// It is false for code files of other rule texts. The files and the peer's bytes are known here, as those in memory
/// are; the system's files and sockets reveal none.
pub fn files_decide_the_page()
    ensures read { (disk : Disk) (keys : Keys) (registry : Text) (targets : List TargetValue) (files : List TargetFiles)
        (held : AreTargetsOf disk keys registry targets) → AreLinesOf disk held.rows files
        → AreReadFrom files targets }
    ensures served { (menus : Menus) (wait : ℕ) (first last : InputState) (before after : OutputState) (status : ℕ)
        (sent reply : List ℕ) → AreFresh wait first before
        → IsExchange menus first before (Ok (Replied status)) last after
        → first.left ≡ Some sent → after.written ≡ Some reply → Gets menus sent status reply }
    ensures page { (disk : Disk) (keys : Keys) (registry : Text) (targets : List TargetValue) (files : List TargetFiles)
        (by_rules : List RuleTarget) (sent query : List ℕ) (page : Page) (without_body : Bool) (status : ℕ)
        (reply : List ℕ) (held : AreTargetsOf disk keys registry targets) → AreLinesOf disk held.rows files
        → AreOfFiles files by_rules → length sent ≤ MAX_HEAD_BYTES → IsRouted sent (Menu page query) without_body
        → refusal query ≡ None → Gets (menu_of targets) sent status reply → status ≢ unavailable.status
        → (status ≡ 200) × (reply ≡ printed (page_by_rules by_rules page (pairs_of query)) without_body) }
{
    one_route();
    what_follows_a_head_is_ignored();
    a_head_ends_where_it_is_closed();
    compiled_files_have_one_reply();
}
