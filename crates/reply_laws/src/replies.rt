//! All that a service writes to a peer.

ghost use Rattle.std.specs.Prelude.{◌≡◌, ◌≢◌, ℕ, List, All, Some, Result};
ghost use Rattle.text_model.specs.Texts.{Text};
ghost use Rattle.kbart_rows.specs.declared.keys.Keys.{Keys};
ghost use Rattle.registry.specs.Entries.{menu_of};
ghost use Rattle.registry.specs.Targets.{TargetValue};
ghost use Rattle.files.specs.Found.{Disk, Gives};
ghost use Rattle.registry_file.specs.Loading.{AreTargetsOf, IsLoaded};
ghost use Rattle.http_streams.specs.Streams.{AreFresh, InputState, OutputState};
ghost use Rattle.http_exchange.specs.Connections.{AreServed, Connection};
ghost use Rattle.http_exchange.specs.Exchange.{IsExchange};
ghost use Rattle.http_exchange.specs.Replies.{unavailable};
ghost use Rattle.http_exchange.specs.declared.exchange.Served.{Served};
ghost use Rattle.http_exchange.specs.declared.exchange.ServeError.{ServeError};
ghost use Rattle.rule_menus.specs.CodeFiles.{AreReadFrom};
ghost use Rattle.rule_menus.specs.RuleFiles.{TargetFiles, AreOfFiles};
ghost use Rattle.rule_menus.specs.RuleMenus.{RuleTarget};
ghost use Rattle.reply_laws.specs.Files.{IsRegistryOf};
ghost use Rattle.reply_laws.specs.Written.{IsReplyByRules, IsWrittenByRules, IsWrittenOn};

use http_exchange::laws::replies_follow_menus;
use http_request::laws::{
    a_head_ends_where_it_is_closed, one_route, what_follows_a_head_is_ignored,
};
use http_streams::Listener;
use kbart_rows::KeySource;
use rule_menus::laws::compiled_files_have_one_menu;

/// From files to whole replies. If the code files that a registry file names are those of rule texts, all that is
/// written to a peer follows from the rule texts, the tables and the bytes that the peer sends, in any pieces: for each
/// request the head and the body of its reply, or, if a write fails, the first bytes of them. A peer that sends nothing
/// gets nothing. One thing is left open: memory can run out at any request, and the reply is the 503. Each request has
/// one other reply (`one`).
///
/// The contract of `load_registry` says `Gives` and `AreTargetsOf` of the registry. That of `serve_on` says `AreFresh`
/// and `IsExchange` of each connection, and that of `http_front::serve_one` says `IsExchange`. There are such rules and
/// tables for every registry that is loaded (`rules`). The law is false if the route of a request may depend on more
/// bytes than are read.
pub fn files_decide_replies()
    ensures rules { (files : List TargetFiles) (targets : List TargetValue) → AreReadFrom files targets
        → (by_rules : List RuleTarget) × AreOfFiles files by_rules }
    ensures read { (disk : Disk) (keys : Keys) (path bytes : Text) (targets : List TargetValue)
        (files : List TargetFiles) → IsRegistryOf disk path files → Gives (disk path) bytes
        → AreTargetsOf disk keys bytes targets → AreReadFrom files targets }
    ensures written { (disk : Disk) (keys : Keys) (path bytes : Text) (targets : List TargetValue)
        (files : List TargetFiles) (by_rules : List RuleTarget) (wait : ℕ) (first last : InputState)
        (before after : OutputState) (end : Result Served ServeError) (sent written : List ℕ)
        → IsRegistryOf disk path files → AreOfFiles files by_rules
        → Gives (disk path) bytes → AreTargetsOf disk keys bytes targets
        → AreFresh wait first before → IsExchange (menu_of targets) first before end last after
        → first.left ≡ Some sent → after.written ≡ Some written → IsWrittenByRules by_rules sent end written }
    ensures one { (by_rules : List RuleTarget) (sent : List ℕ) (status other : ℕ) (reply another : List ℕ)
        → IsReplyByRules by_rules sent status reply → IsReplyByRules by_rules sent other another
        → status ≢ unavailable.status → other ≢ unavailable.status → (status ≡ other) × (reply ≡ another) }
{
    one_route();
    what_follows_a_head_is_ignored();
    a_head_ends_where_it_is_closed();
    replies_follow_menus();
    compiled_files_have_one_menu();
}

/// The same of a whole service, from what the contracts of `load_registry` and `serve_on` say: on each connection that
/// is served, whether all are served or the listener stops early, all that is written follows from the rule texts, the
/// tables and the bytes that its peer sends.
pub fn files_decide_services<K: KeySource, L: Listener>()
    ensures { (disk : Disk) (old_keys new_keys : K) (path : Text) (targets : List TargetValue)
        (files : List TargetFiles) (by_rules : List RuleTarget) (wait : ℕ) (old new : L)
        (all : List (Connection L.In L.Out)) → IsRegistryOf disk path files → AreOfFiles files by_rules
        → IsLoaded K.draws disk old_keys path new_keys targets
        → AreServed (menu_of targets) L.gives L.closes L.In.input_state L.Out.output_state wait old all new
        → All (IsWrittenOn by_rules L.In.input_state L.Out.output_state) all }
{
    files_decide_replies();
}
