//! Laws of routes. Each function has an empty body, and its contract is a theorem.

ghost use Rattle.std.specs.Prelude.{◌≡◌, ◌++◌, ℕ, Bool, List, length};
ghost use Rattle.httparse.specs.Grammar.{ReadsRequest, RequestHead, print_request};
ghost use Rattle.http_request.specs.Routes.{IsRouted, IsHeadOf, RouteValue};
ghost use Rattle.http_request.specs.HeadEnd.{IsFirstClosedAt};

/// Bytes have exactly one route, and their reply either has a body or not.
pub fn one_route()
    ensures { (bytes : List ℕ) (route other : RouteValue) (without_body other_only : Bool) →
        IsRouted bytes route without_body → IsRouted bytes other other_only → (route ≡ other)
        × (without_body ≡ other_only) }
{}

/// Bytes that begin with a head still begin with it when more bytes follow, so nothing after a head changes the route.
pub fn what_follows_a_head_is_ignored()
    ensures { (bytes more : List ℕ) (head : RequestHead) → IsHeadOf bytes head → IsHeadOf (bytes ++ more) head }
{}

/// A head of the grammar ends exactly at the first empty line, which is where reading stops. So the whole head has been
/// read then.
pub fn a_head_ends_where_it_is_closed()
    ensures { (bytes rest : List ℕ) (head : RequestHead) → ReadsRequest bytes head rest
        → IsFirstClosedAt bytes (length (print_request head)) }
{}
