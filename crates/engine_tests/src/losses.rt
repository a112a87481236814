//! `losses` over a list with each kind of its lines, and what it tells of it in each style.
ghost use Rattle.std.specs.Prelude.{◌≡◌, IfSome, false};
ghost use Rattle.loss_core.specs.Periods.{ArePeriods};

use engine_core::{Ending, Style};
use list_core::{EventLines, ItemReader, Sink, Source};
use loss_core::StreamPeriod;
use loss_engine::{Unjudged, losses_over};
use std::alloc::Allocator;

/// The place of lines that are written at the end of the input.
pub(super) const AT_END: usize = usize::MAX;

/// States and frames of a sender are missing, a frame is late, and one starts anew after a silence. Samples of a stream are
/// missing, repeated, late and out of range, and its smpSynch changes. At the greatest clock time neither has come back, and behind
/// it time goes back.
pub(super) const LIST: &[u8] =
    b"V2\nF 0 010ccd01000102000000000188b80001003500000000612b800147810207d0820144840800000000000000008501018601008701008801018901008a0101ab038301ff\nF 1000000 010ccd01000102000000000188b80001003500000000612b800147810207d0820144840800000000000000008501038601028701008801018901008a0101ab038301ff\nF 1000000 010ccd01000102000000000188b80001003500000000612b800147810207d0820144840800000000000000008501018601018701008801018901008a0101ab038301ff\nF 3500000 010ccd01000102000000000188b80001003500000000612b800147810207d0820144840800000000000000008501018601008701008801018901008a0101ab038301ff\nF 3500000 010ccd04000102000000000188ba4000007d000000006073800105a26e3014800153820200038304000000018501028702002a3014800153820200058304000000018501028702002a3014800153820200058304000000018501028702002a3014800153820200048304000000018501018702002a301480015382020fa08304000000018501018702002a\nC 6000000\nC 4000000\n";

/// What is told of it, where streams have 4,000 samples a second.
pub(super) const JUDGED: &[u8] =
    b"3 states-missing appid=0001 ref=\"G\" sim=false from=2 to=2\n3 frames-missing appid=0001 ref=\"G\" sim=false st=3 from=0 to=1\n4 late appid=0001 ref=\"G\" sim=false st=1 sq=1\n5 silent appid=0001 ref=\"G\" sim=false since=3000000 for=500000\n5 restarted appid=0001 ref=\"G\" sim=false st=1 sq=0\n6 samples-missing appid=4000 source=020000000001 id=\"S\" from=4 missing=1\n6 sample-repeated appid=4000 source=020000000001 id=\"S\" cnt=5\n6 sample-late appid=4000 source=020000000001 id=\"S\" cnt=4\n6 synch appid=4000 source=020000000001 id=\"S\" from=2 to=1\n6 count-out-of-range appid=4000 source=020000000001 id=\"S\" cnt=4000\n8 time-back by=2000000\nend silent appid=0001 ref=\"G\" sim=false since=5500000 for=500000\nend silent appid=4000 source=020000000001 id=\"S\" since=3500000 for=2500000\ntotal goose appid=0001 ref=\"G\" sim=false frames=4 states-missing=1 frames-missing=2 late=1 repeated=0 restarted=1 silent=2 longest=2500000\ntotal sv appid=4000 source=020000000001 id=\"S\" samples=5 missing=1 late=1 repeated=1 out-of-range=1 outages=1 longest=1\n";

/// The same behind dates.
pub(super) const JUDGED_DATED: &[u8] =
    b"1970-01-01T00:00:01.000000Z 3 states-missing appid=0001 ref=\"G\" sim=false from=2 to=2\n1970-01-01T00:00:01.000000Z 3 frames-missing appid=0001 ref=\"G\" sim=false st=3 from=0 to=1\n1970-01-01T00:00:01.000000Z 4 late appid=0001 ref=\"G\" sim=false st=1 sq=1\n1970-01-01T00:00:03.500000Z 5 silent appid=0001 ref=\"G\" sim=false since=3000000 for=500000\n1970-01-01T00:00:03.500000Z 5 restarted appid=0001 ref=\"G\" sim=false st=1 sq=0\n1970-01-01T00:00:03.500000Z 6 samples-missing appid=4000 source=020000000001 id=\"S\" from=4 missing=1\n1970-01-01T00:00:03.500000Z 6 sample-repeated appid=4000 source=020000000001 id=\"S\" cnt=5\n1970-01-01T00:00:03.500000Z 6 sample-late appid=4000 source=020000000001 id=\"S\" cnt=4\n1970-01-01T00:00:03.500000Z 6 synch appid=4000 source=020000000001 id=\"S\" from=2 to=1\n1970-01-01T00:00:03.500000Z 6 count-out-of-range appid=4000 source=020000000001 id=\"S\" cnt=4000\n1970-01-01T00:00:04.000000Z 8 time-back by=2000000\n- end silent appid=0001 ref=\"G\" sim=false since=5500000 for=500000\n- end silent appid=4000 source=020000000001 id=\"S\" since=3500000 for=2500000\n- total goose appid=0001 ref=\"G\" sim=false frames=4 states-missing=1 frames-missing=2 late=1 repeated=0 restarted=1 silent=2 longest=2500000\n- total sv appid=4000 source=020000000001 id=\"S\" samples=5 missing=1 late=1 repeated=1 out-of-range=1 outages=1 longest=1\n";

/// The same as objects.
pub(super) const JUDGED_OBJECTS: &[u8] =
    b"{\"line\":3,\"microseconds\":1000000,\"time\":\"1970-01-01T00:00:01.000000Z\",\"kind\":\"states-missing\",\"appid\":\"0001\",\"gocbRef\":\"G\",\"simulation\":false,\"from\":2,\"to\":2}\n{\"line\":3,\"microseconds\":1000000,\"time\":\"1970-01-01T00:00:01.000000Z\",\"kind\":\"frames-missing\",\"appid\":\"0001\",\"gocbRef\":\"G\",\"simulation\":false,\"stNum\":3,\"from\":0,\"to\":1}\n{\"line\":4,\"microseconds\":1000000,\"time\":\"1970-01-01T00:00:01.000000Z\",\"kind\":\"late\",\"appid\":\"0001\",\"gocbRef\":\"G\",\"simulation\":false,\"stNum\":1,\"sqNum\":1}\n{\"line\":5,\"microseconds\":3500000,\"time\":\"1970-01-01T00:00:03.500000Z\",\"kind\":\"silent\",\"appid\":\"0001\",\"gocbRef\":\"G\",\"simulation\":false,\"since\":3000000,\"sinceTime\":\"1970-01-01T00:00:03.000000Z\",\"for\":500000}\n{\"line\":5,\"microseconds\":3500000,\"time\":\"1970-01-01T00:00:03.500000Z\",\"kind\":\"restarted\",\"appid\":\"0001\",\"gocbRef\":\"G\",\"simulation\":false,\"stNum\":1,\"sqNum\":0}\n{\"line\":6,\"microseconds\":3500000,\"time\":\"1970-01-01T00:00:03.500000Z\",\"kind\":\"samples-missing\",\"appid\":\"4000\",\"source\":\"020000000001\",\"svID\":\"S\",\"from\":4,\"missing\":1}\n{\"line\":6,\"microseconds\":3500000,\"time\":\"1970-01-01T00:00:03.500000Z\",\"kind\":\"sample-repeated\",\"appid\":\"4000\",\"source\":\"020000000001\",\"svID\":\"S\",\"smpCnt\":5}\n{\"line\":6,\"microseconds\":3500000,\"time\":\"1970-01-01T00:00:03.500000Z\",\"kind\":\"sample-late\",\"appid\":\"4000\",\"source\":\"020000000001\",\"svID\":\"S\",\"smpCnt\":4}\n{\"line\":6,\"microseconds\":3500000,\"time\":\"1970-01-01T00:00:03.500000Z\",\"kind\":\"synch\",\"appid\":\"4000\",\"source\":\"020000000001\",\"svID\":\"S\",\"from\":2,\"to\":1}\n{\"line\":6,\"microseconds\":3500000,\"time\":\"1970-01-01T00:00:03.500000Z\",\"kind\":\"count-out-of-range\",\"appid\":\"4000\",\"source\":\"020000000001\",\"svID\":\"S\",\"smpCnt\":4000}\n{\"line\":8,\"microseconds\":4000000,\"time\":\"1970-01-01T00:00:04.000000Z\",\"kind\":\"time-back\",\"by\":2000000}\n{\"kind\":\"end-silent\",\"appid\":\"0001\",\"gocbRef\":\"G\",\"simulation\":false,\"since\":5500000,\"sinceTime\":\"1970-01-01T00:00:05.500000Z\",\"for\":500000}\n{\"kind\":\"end-silent\",\"appid\":\"4000\",\"source\":\"020000000001\",\"svID\":\"S\",\"since\":3500000,\"sinceTime\":\"1970-01-01T00:00:03.500000Z\",\"for\":2500000}\n{\"kind\":\"total-goose\",\"appid\":\"0001\",\"gocbRef\":\"G\",\"simulation\":false,\"frames\":4,\"statesMissing\":1,\"framesMissing\":2,\"late\":1,\"repeated\":0,\"restarted\":1,\"silent\":2,\"longest\":2500000}\n{\"kind\":\"total-sv\",\"appid\":\"4000\",\"source\":\"020000000001\",\"svID\":\"S\",\"samples\":5,\"missing\":1,\"late\":1,\"repeated\":1,\"outOfRange\":1,\"outages\":1,\"longest\":1}\n";

/// What is told of it, where no period is given.
pub(super) const COUNTED: &[u8] =
    b"3 states-missing appid=0001 ref=\"G\" sim=false from=2 to=2\n3 frames-missing appid=0001 ref=\"G\" sim=false st=3 from=0 to=1\n4 late appid=0001 ref=\"G\" sim=false st=1 sq=1\n5 silent appid=0001 ref=\"G\" sim=false since=3000000 for=500000\n5 restarted appid=0001 ref=\"G\" sim=false st=1 sq=0\n6 synch appid=4000 source=020000000001 id=\"S\" from=2 to=1\n8 time-back by=2000000\nend silent appid=0001 ref=\"G\" sim=false since=5500000 for=500000\ntotal goose appid=0001 ref=\"G\" sim=false frames=4 states-missing=1 frames-missing=2 late=1 repeated=0 restarted=1 silent=2 longest=2500000\ntotal sv appid=4000 source=020000000001 id=\"S\" samples=5\n";

/// The same behind dates.
pub(super) const COUNTED_DATED: &[u8] =
    b"1970-01-01T00:00:01.000000Z 3 states-missing appid=0001 ref=\"G\" sim=false from=2 to=2\n1970-01-01T00:00:01.000000Z 3 frames-missing appid=0001 ref=\"G\" sim=false st=3 from=0 to=1\n1970-01-01T00:00:01.000000Z 4 late appid=0001 ref=\"G\" sim=false st=1 sq=1\n1970-01-01T00:00:03.500000Z 5 silent appid=0001 ref=\"G\" sim=false since=3000000 for=500000\n1970-01-01T00:00:03.500000Z 5 restarted appid=0001 ref=\"G\" sim=false st=1 sq=0\n1970-01-01T00:00:03.500000Z 6 synch appid=4000 source=020000000001 id=\"S\" from=2 to=1\n1970-01-01T00:00:04.000000Z 8 time-back by=2000000\n- end silent appid=0001 ref=\"G\" sim=false since=5500000 for=500000\n- total goose appid=0001 ref=\"G\" sim=false frames=4 states-missing=1 frames-missing=2 late=1 repeated=0 restarted=1 silent=2 longest=2500000\n- total sv appid=4000 source=020000000001 id=\"S\" samples=5\n";

/// The same as objects.
pub(super) const COUNTED_OBJECTS: &[u8] =
    b"{\"line\":3,\"microseconds\":1000000,\"time\":\"1970-01-01T00:00:01.000000Z\",\"kind\":\"states-missing\",\"appid\":\"0001\",\"gocbRef\":\"G\",\"simulation\":false,\"from\":2,\"to\":2}\n{\"line\":3,\"microseconds\":1000000,\"time\":\"1970-01-01T00:00:01.000000Z\",\"kind\":\"frames-missing\",\"appid\":\"0001\",\"gocbRef\":\"G\",\"simulation\":false,\"stNum\":3,\"from\":0,\"to\":1}\n{\"line\":4,\"microseconds\":1000000,\"time\":\"1970-01-01T00:00:01.000000Z\",\"kind\":\"late\",\"appid\":\"0001\",\"gocbRef\":\"G\",\"simulation\":false,\"stNum\":1,\"sqNum\":1}\n{\"line\":5,\"microseconds\":3500000,\"time\":\"1970-01-01T00:00:03.500000Z\",\"kind\":\"silent\",\"appid\":\"0001\",\"gocbRef\":\"G\",\"simulation\":false,\"since\":3000000,\"sinceTime\":\"1970-01-01T00:00:03.000000Z\",\"for\":500000}\n{\"line\":5,\"microseconds\":3500000,\"time\":\"1970-01-01T00:00:03.500000Z\",\"kind\":\"restarted\",\"appid\":\"0001\",\"gocbRef\":\"G\",\"simulation\":false,\"stNum\":1,\"sqNum\":0}\n{\"line\":6,\"microseconds\":3500000,\"time\":\"1970-01-01T00:00:03.500000Z\",\"kind\":\"synch\",\"appid\":\"4000\",\"source\":\"020000000001\",\"svID\":\"S\",\"from\":2,\"to\":1}\n{\"line\":8,\"microseconds\":4000000,\"time\":\"1970-01-01T00:00:04.000000Z\",\"kind\":\"time-back\",\"by\":2000000}\n{\"kind\":\"end-silent\",\"appid\":\"0001\",\"gocbRef\":\"G\",\"simulation\":false,\"since\":5500000,\"sinceTime\":\"1970-01-01T00:00:05.500000Z\",\"for\":500000}\n{\"kind\":\"total-goose\",\"appid\":\"0001\",\"gocbRef\":\"G\",\"simulation\":false,\"frames\":4,\"statesMissing\":1,\"framesMissing\":2,\"late\":1,\"repeated\":0,\"restarted\":1,\"silent\":2,\"longest\":2500000}\n{\"kind\":\"total-sv\",\"appid\":\"4000\",\"source\":\"020000000001\",\"svID\":\"S\",\"samples\":5}\n";

// The period of 4,000 samples a second, for all streams.
fn one_period<A: Allocator>(alloc: A) -> Option<Vec<StreamPeriod<A>, A>>
    ensures { IfSome result (λ periods. ArePeriods periods.items) }
{
    let mut periods = Vec::new(alloc);
    match periods.push(StreamPeriod::for_all(4000)) {
        Ok(()) => Some(periods),
        Err(_) => None,
    }
}

// Tells what is missing of the events of a list, in a style, where streams have these periods.
fn tell<A: Allocator + Copy, R: Source, W: Sink>(
    alloc: A,
    style: Style,
    events: ItemReader<R, EventLines>,
    periods: Vec<StreamPeriod<A>, A>,
    writer: &mut W,
) -> (Ending, R)
    requires works { W.failed writer.old ≡ false }
    requires periods { ArePeriods periods.items }
{
    let mut unjudged = Unjudged::new(alloc);
    losses_over(alloc, style, events, periods, &mut unjudged, writer).into_source()
}

/// Tells what is missing of the events of a list, in a style; of streams too, with 4,000 samples a second, if they are
/// judged.
pub(super) fn tell_losses<A: Allocator + Copy, R: Source, W: Sink>(
    alloc: A,
    style: Style,
    events: ItemReader<R, EventLines>,
    are_judged: bool,
    writer: &mut W,
) -> (Ending, R)
    requires works { W.failed writer.old ≡ false }
{
    if !are_judged {
        return tell(alloc, style, events, Vec::new(alloc), writer);
    }
    match one_period(alloc) {
        Some(periods) => tell(alloc, style, events, periods, writer),
        None => (Ending::Memory, events.into_reader()),
    }
}
