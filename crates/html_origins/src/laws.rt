//! Laws of where elements come from. Each function's contract is one law.
ghost use Rattle.html_origins.specs.Origin.{IsEachOriginKnown};
ghost use Rattle.html_origins.specs.Allowed.{AreAllowedStatesKept};
ghost use Rattle.html_origins.specs.KeptTokens.{IsEachKeptOriginKnown};

/// Whatever the state, a token leaves only elements, listed tags and namespaces that were allowed.
pub fn allowed_states_are_kept()
    ensures { AreAllowedStatesKept }
{}

/// Once a token was taken, whatever the state, each element of the tree stood there or was listed, is the token's own, or is one of the few
/// that the rules make by themselves.
pub fn each_origin_is_known()
    ensures { IsEachOriginKnown }
{}

/// Once tokens were taken whose tags were kept, whatever the state was, each element of the tree stood there or was listed, is that of a
/// kept tag, or
/// is `html`, `head`, `body`, `colgroup`, `tbody` or `tr`.
pub fn each_kept_origin_is_known()
    ensures { IsEachKeptOriginKnown }
{}
