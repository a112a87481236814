//! Laws about the texts that engines write, and about scripts. The functions compute nothing.
ghost use Rattle.std.specs.Prelude.{◌≡◌, ◌++◌, ℕ, List, Bool};
ghost use Rattle.std.specs.List.{flat_map, list_any};
ghost use Rattle.list_core.specs.Items.{Listing};
ghost use Rattle.engine_core.specs.EngineText.{IsPlain, Text, last_text};
ghost use Rattle.engine_core.specs.computed.WholeText.{whole_text, told};
ghost use Rattle.joint_laws.specs.CaptureReplay.{CapturesAreReplayed};
ghost use Rattle.joint_laws.specs.ChangesLaws.{ChangesKeepTurns};
ghost use Rattle.joint_laws.specs.ListLaws.{PublishedListsReplay, WrittenListsReplay};
ghost use Rattle.joint_laws.specs.ListedBlocks.{ListedBlocksAreApart, ListedBlocksFit, ReplaysWriteEntries};
ghost use Rattle.joint_laws.specs.OneTextLaws.{BlocksTextsAreOne, PublishTextsAreOne, ReplayTextsAreOne, WatchTextsAreOne};
ghost use Rattle.exchange_engines.specs.ScriptLaws.{ScriptsAreInOrder};
ghost use Rattle.joint_laws.specs.PublishedLaws.{PublishedTextsReplay, ScriptsGiveLists, ScriptsSayRuns};
ghost use Rattle.joint_laws.specs.WholeTexts.{BlocksIsLines, CheckIsLines, FixedWritesEach, ReplayIsLines, ReplayWritesEach, ShowIsLines, ShowWritesEach, WatchIsLines};

use std::alloc::Allocator;

/// Where a text speaks of each item alone and refuses none, the whole text is the texts of the items one after another,
/// and the last one; something is found where an item is a finding; and the text stops as the list does.
pub fn plain_texts_follow_one_another<X, C>()
    ensures text { (t : Text X C) (line : ℕ × X → List ℕ) (finds : ℕ × X → Bool) → IsPlain t line finds → (l : Listing X C) →
        whole_text t l ≡ t.first ++ (flat_map line l.items ++ last_text t l.stop) }
    ensures found { (t : Text X C) (line : ℕ × X → List ℕ) (finds : ℕ × X → Bool) → IsPlain t line finds → (l : Listing X C) →
        (told t l).found ≡ list_any finds l.items }
    ensures stop { (t : Text X C) (line : ℕ × X → List ℕ) (finds : ℕ × X → Bool) → IsPlain t line finds → (l : Listing X C) →
        (told t l).stop ≡ l.stop }
{}

/// Before each item of a script stands what must: nothing before the control line, the control line and fewer than 16
/// steps before a step, and before a change or a poll a control line with steps that set up a publisher, then changes and
/// polls alone.
pub fn scripts_are_in_order<A: Allocator>()
    ensures { ScriptsAreInOrder A }
{}

/// A list that is written, a line `V2` and the one line of each event, is replayed as its events are: what is written is
/// the lines of the entries that these events have, and the list is read to its end. It has at most 999,999 events, each of
/// which can stand in a list.
pub fn written_lists_replay<A: Allocator>()
    ensures { WrittenListsReplay A }
{}

/// What a replay with some control blocks writes of a list is one text: whatever says it says the same of each list.
pub fn replay_texts_are_one<A: Allocator>()
    ensures { ReplayTextsAreOne A }
{}

/// What a watch of a stream writes of a list is one text: whatever says it says the same of each list.
pub fn watch_texts_are_one<A: Allocator>()
    ensures { WatchTextsAreOne A }
{}

/// What `blocks` writes of a list is one text: whatever says it says the same of each list.
pub fn blocks_texts_are_one<A: Allocator>()
    ensures { BlocksTextsAreOne A }
{}

/// What `publish` writes of a script is one text: whatever says it says the same of each script, also of one that has a
/// fault or a change that is refused.
pub fn publish_texts_are_one<A: Allocator>()
    ensures { PublishTextsAreOne A }
{}

/// What a replay writes of a list is the lines of the entries that its events have, and the line of its fault, if there is
/// one.
pub fn replays_write_entries<A: Allocator>()
    ensures { ReplaysWriteEntries A }
{}

/// With changes alone a replay tells of each event the actions, the expiries and the switches that it tells without, and of the
/// other entries those that are changes: no entry is told of another event, and none in another order.
pub fn changes_keep_turns<A: Allocator>()
    ensures { ChangesKeepTurns A }
{}

/// Of each event a command may write something, whatever events stand before it; so the front that a run leaves which breaks off is
/// one of a whole text. `check`, `blocks` and `watch` do in each style, `show` and `replay` as text, with dates or without:
/// as objects they write digits of floats, which exist by what writes them alone.
pub fn each_event_is_written<A: Allocator, C, F>()
    ensures fixed { FixedWritesEach A C F }
    ensures show { ShowWritesEach A C F }
    ensures replay { ReplayWritesEach A C F }
{}

/// What a command writes of an event as text is whole lines. So what it writes with `--time` is, without the dates, what it writes
/// without.
pub fn texts_are_lines<A: Allocator, C, F>()
    ensures show { ShowIsLines A C F }
    ensures check { CheckIsLines A C F }
    ensures replay { ReplayIsLines A C F }
    ensures watch { WatchIsLines A C F }
    ensures blocks { BlocksIsLines A C F }
{}

/// Of a capture of any length a replay writes the lines of the entries that its events have, each with the number of its packet,
/// and the line of its fault, if it has one: all where the run ended with the capture or by that fault, and else a prefix. The
/// actions among these entries are exactly those of the blocks of which a frame is a good one with a status number above those of
/// all good ones before it in their epoch, with the frame's own numbers, time and members. So too of what is left of the
/// events where frames of other protocols are passed over.
pub fn captures_are_replayed<A: Allocator>()
    ensures { CapturesAreReplayed A }
{}

/// The BLOCKs of the lines `block` that `blocks` writes of a list say blocks of different names, so that a replay can have
/// all of them. Where each TEXT of these lines is the BLOCK of one of some control blocks, and no line `block-changed`
/// stands, a replay of the same list with these blocks tells no frame as not subscribed, and refuses none for its datSet,
/// its goID, its confRev or the count of its members.
pub fn listed_blocks_replay<A: Allocator>()
    ensures apart { ListedBlocksAreApart A }
    ensures fit { ListedBlocksFit A }
{}

/// The list of a publisher's whole run, replayed with its own block, gives one line for each frame: an action for that of a
/// change, a renewal for that of a poll, and nothing else. The control is neither simulated nor in commissioning, the status
/// numbers don't wrap, and each frame comes in the lifetime of the one before. The moments of its calls have at most 18
/// digits, the frames are octets, and there are at most 999,999 of them.
pub fn published_lists_replay<P: Allocator, S: Allocator>()
    ensures { PublishedListsReplay P S }
{}

/// The text of a script, however its input ends, says nothing of a publisher, or a run of one: the calls up to its end, to a
/// fault, or to the first change that is refused. What `publish` writes of it is the list of the frames that these calls
/// give, and the line of the fault or of the refused change, if there is one. A replay of that with the publisher's own
/// block gives one line for each frame: an action for that of a change, a renewal for that of a poll, and nothing else. The
/// control is neither simulated nor in commissioning, the status numbers don't wrap, and each frame comes in the lifetime of
/// the one before. That the fields have their sizes, and that the frames are octets, can stand in a list with their moments
/// and are not too many, follows from the text.
pub fn published_texts_replay<P: Allocator, S: Allocator>()
    ensures run { ScriptsSayRuns P }
    ensures list { ScriptsGiveLists P S }
    ensures replay { PublishedTextsReplay P S }
{}
