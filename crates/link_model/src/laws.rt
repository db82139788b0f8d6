ghost use Rattle.std.specs.Prelude.{◌≡◌, ◌+◌, ◌<◌, ◌≤◌, ℕ, List, ◌∷◌, [], ◌++◌, Bool, true, false, Option};
ghost use Rattle.std.specs.List.{AllByRecursion};
ghost use Rattle.sides.specs.declared.side.Side.{Side};
ghost use Rattle.sides.specs.Side.{peer};
ghost use Rattle.link_model.specs.declared.flight.Flight.{Flight};
ghost use Rattle.link_model.specs.declared.flight.Due.{Due};
ghost use Rattle.link_script.specs.declared.script.ScriptLine.{ScriptLine};
ghost use Rattle.link_model.specs.declared.passage.Rate.{Rate};
ghost use Rattle.link_model.specs.declared.passage.Waiting.{Waiting};
ghost use Rattle.link_model.specs.Bounds.{HasRate};
ghost use Rattle.link_model.specs.Passage.{ticks_queued};
ghost use Rattle.link_model.specs.State.{LinkState, HasRoom};
ghost use Rattle.link_model.specs.Steps.{new_link, next_number, rate_of, waiting_of, after_send, after_delivery};
ghost use Rattle.link_model.specs.Order.{AreInOrder};
ghost use Rattle.link_model.specs.Laws.{moves, delays, going_to, WereSentBefore, plain_flight, free_at, AreFirst, handed_on, AreLater, IsPaced, with_copies_shown};

/// A copy arrives later than its segment was sent: what is true of all copies under way, and of every copy that would
/// arrive later than a tick, is true of all after a sending at that tick.
pub fn copies_arrive_later()
    ensures { (true_of : Flight (List ℕ) → Bool) (strip alter : Side → List ℕ → List ℕ)
        (from : Side) (octets : List ℕ) (length now : ℕ) (link : LinkState (List ℕ))
        → 1 ≤ link.delay → AllByRecursion (λ f. true_of f ≡ true) link.under_way →
        ((f : Flight (List ℕ)) → now < f.tick → true_of f ≡ true)
        → AllByRecursion (λ f. true_of f ≡ true)
        (after_send strip alter from octets length now link).under_way }
{}

/// The copies under way are in the order of their arrival, the earliest first, whatever is sent and delivered.
pub fn copies_are_in_order()
    ensures sent { (strip alter : Side → List ℕ → List ℕ)
        (from : Side) (octets : List ℕ) (length now : ℕ) (link : LinkState (List ℕ))
        → AreInOrder link.under_way → AreInOrder
        (after_send strip alter from octets length now link).under_way }
    ensures delivered { (due : Due) (link : LinkState (List ℕ)) → AreInOrder link.under_way →
        AreInOrder (after_delivery due link).under_way }
{}

/// Where no line loses, delays or repeats a segment of a direction, its copies are in order of sending, each due a delay
/// after it was sent: a sending puts one copy behind the others of its direction (`last`), and the next one again
/// (`next`).
pub fn plain_links_keep_their_order()
    ensures last { (strip alter : Side → List ℕ → List ℕ)
        (from : Side) (octets : List ℕ) (length now : ℕ) (link : LinkState (List ℕ))
        → AllByRecursion (λ line. moves from line ≡ false) link.lines → AreInOrder link.under_way
        → WereSentBefore (next_number from link) (now + link.delay)
        (going_to (peer from) link.under_way)
        → going_to (peer from) (after_send strip alter from octets length now link).under_way
        ≡ going_to (peer from) link.under_way ++ plain_flight strip alter from octets now link ∷
        [] }
    ensures next { (strip alter : Side → List ℕ → List ℕ)
        (from : Side) (octets : List ℕ) (length now later : ℕ) (link : LinkState (List ℕ))
        → AllByRecursion (λ line. moves from line ≡ false) link.lines → AreInOrder link.under_way →
        now ≤ later
        → WereSentBefore (next_number from link) (now + link.delay)
        (going_to (peer from) link.under_way)
        → WereSentBefore (next_number from (after_send strip alter from octets length now link))
        (later + link.delay)
        (going_to (peer from) (after_send strip alter from octets length now link).under_way) }
{}

/// What a link does commutes with showing what is carried as something else, here as other octets; the lemma holds for
/// every two things that can be carried.
pub fn sending_commutes_with_showing()
    ensures { (show : List ℕ → List ℕ) (strip alter strip' alter' : Side → List ℕ → List ℕ)
        → ((side : Side) (c : List ℕ) → show (strip side c) ≡ strip' side (show c)) →
        ((side : Side) (c : List ℕ) → show (alter side c) ≡ alter' side (show c))
        → (from : Side) (carried : List ℕ) (length now : ℕ) (link : LinkState (List ℕ))
        → with_copies_shown show (after_send strip alter from carried length now link) ≡ after_send strip'
        alter' from (show carried) length now (with_copies_shown show link) }
{}

/// A segment waits at most 100,000 ticks in the queue of a direction, and a queue never holds more than its room: whatever
/// is sent, what waits before the direction has room (`room`), and no room that a script gives takes longer (`wait`).
pub fn queues_have_their_room()
    ensures begun { (seed path delay : ℕ) (lines : List ScriptLine) (from : Side) →
        HasRoom (rate_of from (new_link {C = List ℕ} seed path delay lines))
        (waiting_of from (new_link {C = List ℕ} seed path delay lines)) }
    ensures room { (strip alter : Side → List ℕ → List ℕ)
        (from of : Side) (octets : List ℕ) (length now : ℕ) (link : LinkState (List ℕ))
        → HasRoom (rate_of of link) (waiting_of of link) →
        HasRoom (rate_of of (after_send strip alter from octets length now link))
        (waiting_of of (after_send strip alter from octets length now link)) }
    ensures wait { (rate : Option Rate) (waiting : Waiting) → HasRate rate → HasRoom rate waiting →
        ticks_queued rate waiting ≤ 100000 }
{}

/// Where no line delays or repeats a segment of a direction, and none of its waits is drawn, its copies are in the order of
/// sending, whatever its rate is and whatever is lost: what is sent stands behind the others of its direction (`behind`),
/// and so does the next one (`next`).
pub fn queues_keep_their_order()
    ensures behind { (strip alter : Side → List ℕ → List ℕ)
        (from : Side) (octets : List ℕ) (length now : ℕ) (link : LinkState (List ℕ))
        → HasRate (rate_of from link) → AllByRecursion (λ line. delays from line ≡ false) link.lines →
        AreInOrder link.under_way
        → WereSentBefore (next_number from link) (free_at from now link)
        (going_to (peer from) link.under_way)
        → AreFirst (going_to (peer from) link.under_way)
        (going_to (peer from) (after_send strip alter from octets length now link).under_way) }
    ensures next { (strip alter : Side → List ℕ → List ℕ)
        (from : Side) (octets : List ℕ) (length now later : ℕ) (link : LinkState (List ℕ))
        → HasRate (rate_of from link) → AllByRecursion (λ line. delays from line ≡ false) link.lines →
        AreInOrder link.under_way → now ≤ later
        → WereSentBefore (next_number from link) (free_at from now link)
        (going_to (peer from) link.under_way)
        → WereSentBefore (next_number from (after_send strip alter from octets length now link))
        (free_at from later (after_send strip alter from octets length now link))
        (going_to (peer from) (after_send strip alter from octets length now link).under_way) }
{}

/// A rate is a rate: of segments of any octets that are handed over at ticks that never fall, what a direction hands on from
/// the tick of one on, up to any other, is at most that segment and the rate times the ticks, the first and the last among
/// them.
pub fn rates_are_kept()
    ensures { (rate : Rate) (waiting : Waiting) (segments : List (ℕ × ℕ)) → 0 < rate.octets →
        AreLater waiting.at segments → IsPaced rate (handed_on rate waiting segments) }
{}
