//! What holds of every table of connections and of every connection's joins, as clauses of functions that do nothing.

ghost use Rattle.connection_table.specs.AskedTokens.{AskedTokensAreHeard, WrittenJoinsAreFound};
ghost use Rattle.connection_table.specs.JoinTokens.{OctetsShowTheToken, ValuesShowTheToken, JoinsAskByTheToken};
ghost use Rattle.connection_table.specs.FoundJoins.{JoinsAreFound};
ghost use Rattle.connection_table.specs.Arrivals.{EachArrivalIsLent};
ghost use Rattle.connection_table.specs.Routes.{EachIsRoutedHome, EachJoinIsRouted};
ghost use Rattle.connection_table.specs.Calls.{EachIsIsolated};

/// A law: where octets ask to join by a token, an end that hears them hears this token.
pub fn asked_tokens_are_heard()
    ensures { AskedTokensAreHeard }
{}

/// A law: each SYN without ACK that is written to join, as A's end of a path writes it (RFC 8684, section 3.2), is found by its token.
pub fn written_joins_are_found()
    ensures { WrittenJoinsAreFound }
{}

/// A law: at every moment each copy that comes to B next, and asks to join, shows the token of B's key (RFC 8684, section 3.2). Over
/// segments as values this holds whatever the script does; over octets where the numbers of the start fit.
pub fn joins_show_the_token()
    ensures values { ValuesShowTheToken }
    ensures octets { OctetsShowTheToken }
{}

/// A law: where the numbers of the start fit, at every moment the octets that come to B next, and ask to join, do so by the token of
/// B's key: that is the one by which a listener routes them.
pub fn joins_ask_by_the_token()
    ensures { JoinsAskByTheToken }
{}

/// A law: where the numbers of the start fit, at every moment the octets that come to B next on a path that joins, and in which its end
/// hears a SYN without ACK that asks to join, ask by that token: so a listener finds each join.
pub fn joins_are_found()
    ensures { JoinsAreFound }
{}

/// A law: of every path, the copy that arrives by its next step is lent exactly where its next ask takes a copy from the link. So a
/// listener sees each segment before it is heard.
pub fn each_arrival_is_lent()
    ensures { EachArrivalIsLent }
{}

/// A law: a join that comes to B of a connection is routed to that connection, so that each step is made where it was asked for. This
/// holds of each that is what its own input and turns come to, where both files are shorter than 2^31 - 2 octets.
pub fn joins_find_their_connection()
    ensures home { EachIsRoutedHome }
    // The router finds each: where B's end hears a SYN without ACK that asks to join, it goes to that connection by its token.
    ensures routed { EachJoinIsRouted }
{}

/// A law: of such connections each is, after every list of calls on the table, what the calls for it alone make of it; and where none of
/// these wanted memory it is what its own input and turns come to.
pub fn connections_are_isolated()
    ensures { EachIsIsolated }
{}
