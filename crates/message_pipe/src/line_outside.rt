//! An outside over another one, whose files and readers' ports have lines where this one has frames.

ghost use Rattle.std.specs.Prelude.{◌≡◌, ◌^◌, ◌<◌, ◌≤◌, ℕ, List, [], Option, None, Some, length, vec_len, is_ok, string_bytes, IfOk, IfSome, OnOk, OnErr};
ghost use Rattle.outside_kit.specs.declared.port.Port.{Port};
ghost use Rattle.outside_kit.specs.Outside.{HasRisen};
ghost use Rattle.outside_kit.specs.Calls.{Load, Bind, AreCallsAfter};
ghost use Rattle.message_pipe.specs.Showing.{StaysElsewhere, PortStands, counted_of};
ghost use Rattle.message_pipe.specs.Below.{LoadComes, passed_of, nothing_passed};
ghost use Rattle.message_pipe.specs.Lined.{lined_content};

use crate::line_port::{LinePort, put_for};
use crate::lines::framed_within;
use crate::trace::{MadeCall, Trace};
use outside_kit::{LoadFault, Outside, Port, PutFault};
use std::alloc::Global;
use std::marker::{Brand, Model, PhantomData};

/// Names what the outside below told of its ports when a [`LineOutside`] was made of it. A call of [`Brand`] picks it.
pub trait Naming {
    ghost use Rattle.std.specs.Prelude.{ℕ, List, Option};
    ghost use Rattle.outside_kit.specs.declared.port.Port.{Port};
    ghost use Rattle.outside_kit.specs.Calls.{Made};

    /// What each port held, where that was told.
    ghost held: { Port → Option (List ℕ) };

    /// How many binds and puts of each port had failed.
    ghost faults: { Port → ℕ };

    /// The calls that had been made, where they were told.
    ghost calls: { Option (List Made) };
}

impl Naming for Brand {
    ghost use Rattle.std.specs.Prelude.{None};

    ghost held = { λ _. None };

    ghost faults = { λ _. 0 };

    ghost calls = { None };
}

/// An outside over another one. Of two names the content is the frames of the lines of what the outside below has, and at the
/// readers' ports each message of what is put is shown as a line, once all of it has come. All else is the outside below.
pub struct LineOutside<O: Outside, N: Naming> {
    alloc: Global,
    inner: O,
    file_a: String,
    file_b: String,
    read_by_a: LinePort,
    read_by_b: LinePort,
    /// The calls that were made on this outside.
    trace: Trace,
    of: PhantomData<N>,
}

impl<O: Outside, N: Naming> Model for LineOutside<O, N> {
    ghost use Rattle.std.specs.Prelude.{◌≤◌, length, string_bytes};
    ghost use Rattle.message_pipe.specs.Showing.{counted_of};
    ghost use Rattle.message_pipe.specs.Below.{CallsStand};
    ghost use Rattle.message_pipe.specs.Lined.{Lined, PortsStand};

    ghost Value = { Lined O };

    ghost view = { λ lines. record {
      inner = lines.inner;
      file_a = string_bytes lines.file_a;
      file_b = string_bytes lines.file_b;
      read_by_a = counted_of lines.read_by_a;
      read_by_b = counted_of lines.read_by_b;
      calls = lines.trace.calls;
    } };

    ghost invariant = { λ lines. (lines.read_by_a.end ≤ length lines.read_by_a.octets.items)
        × (lines.read_by_b.end ≤ length lines.read_by_b.octets.items)
        × PortsStand (counted_of lines.read_by_a) (counted_of lines.read_by_b) N.held
        (O.told lines.inner).holds N.faults (O.told lines.inner).port_faults
        × CallsStand lines.trace.calls (counted_of lines.read_by_a) (counted_of lines.read_by_b)
        N.calls (O.told lines.inner).calls };
}

/// Loads a content through the outside below, as the frames of its lines where the name is one of these two.
pub(crate) fn load_from<O: Outside>(
    alloc: Global,
    inner: &mut O,
    lined: (&str, &str),
    name: &str,
    limit: u64,
) -> Result<Vec<u8>, LoadFault>
    requires { limit < 2 ^ 32 }
    ensures whole { IfOk result
        (λ bytes. IfSome (lined_content lined.entry.0.now lined.entry.1.now (O.told inner.old).content
        name.now) (λ told. bytes.items ≡ told)) }
    ensures within { IfOk result (λ bytes. vec_len bytes ≤ limit) }
    ensures too_long { result ≡ Err LoadFault.TooLong →
        IfSome (lined_content lined.entry.0.now lined.entry.1.now (O.told inner.old).content name.now)
        (λ told. limit < length told) }
    ensures source_within { OnOk result
        (IfSome ((O.told inner.old).source name.now) (λ told. length told ≤ limit)) }
    ensures fits { result ≡ Err LoadFault.Memory →
        IfSome ((O.told inner.old).source name.now) (λ told. length told ≤ limit) }
    ensures counted { (O.told inner.old).load_faults ≤ (O.told inner.new).load_faults }
    ensures failed { result ≡ Err LoadFault.Failed →
        HasRisen (O.told inner.old).load_faults (O.told inner.new).load_faults }
    ensures same_contents { (other : List ℕ) →
        (O.told inner.new).content other ≡ (O.told inner.old).content other }
    ensures same_ports { (port : Port) → (O.told inner.new).holds port ≡
        (O.told inner.old).holds port }
    ensures same_counts { (port : Port) →
        (O.told inner.new).port_faults port ≡ (O.told inner.old).port_faults port }
    ensures calls { LoadComes name.now (is_ok result) (O.told inner.old).calls
        (O.told inner.new).calls }
{
    let bytes = inner.load(alloc, name, limit)?;
    if name == lined.0 || name == lined.1 {
        framed_within(alloc, &bytes, limit)
    } else {
        Ok(bytes)
    }
}

/// Binds a port below; nothing was put for it then.
fn bind_for<O: Outside>(
    alloc: Global,
    inner: &mut O,
    port: Port,
    lines: &mut LinePort,
    name: &str,
) -> Result<(), PutFault>
    requires { lines.old.end ≤ length lines.old.octets.items }
    ensures within { lines.new.end ≤ length lines.new.octets.items }
    ensures empty { OnOk result (lines.new.octets.items ≡ []) }
    ensures err { OnErr result (lines.new.octets.items ≡ lines.old.octets.items) }
    ensures stands { (first : Option (List ℕ)) (faults_first : ℕ) →
        PortStands (counted_of lines.old) first ((O.told inner.old).holds port) faults_first
        ((O.told inner.old).port_faults port) →
        PortStands (counted_of lines.new) first ((O.told inner.new).holds port) faults_first
        ((O.told inner.new).port_faults port) }
    ensures stays { StaysElsewhere port (O.told inner.old) (O.told inner.new) }
    ensures failed { result ≡ Err PutFault.Failed →
        HasRisen ((O.told inner.old).port_faults port) ((O.told inner.new).port_faults port) }
    ensures calls { AreCallsAfter (Bind port name.now) (is_ok result) (O.told inner.old).calls
        (O.told inner.new).calls }
    ensures fresh { OnOk result (passed_of (counted_of lines.new) ≡ nothing_passed) }
    ensures unrefused { OnOk result (lines.new.refused ≡ None) }
{
    match inner.bind(port, name) {
        Ok(()) => {
            *lines = LinePort::new(alloc);
            Ok(())
        }
        Err(fault) => Err(fault),
    }
}

impl<O: Outside, N: Naming> LineOutside<O, N> {
    ghost use Rattle.message_pipe.specs.Below.{CallsStand};
    ghost use Rattle.message_pipe.specs.Lined.{PortsStand};

    /// Over this outside, with lines in the contents of these two names. Of the readers' ports it has to tell that they are empty,
    /// where it tells what they hold.
    pub fn new(alloc: Global, inner: O, file_a: String, file_b: String) -> Self
        requires held { (port : Port) → N.held port ≡ (O.told inner).holds port }
        requires faults { (port : Port) → N.faults port ≡ (O.told inner).port_faults port }
        requires calls { N.calls ≡ (O.told inner).calls }
        requires empty_a { IfSome ((O.told inner).holds Port.ReadByA) (λ text. text ≡ []) }
        requires empty_b { IfSome ((O.told inner).holds Port.ReadByB) (λ text. text ≡ []) }
        ensures { result ≡ record {
          inner = inner;
          file_a = string_bytes file_a;
          file_b = string_bytes file_b;
          read_by_a = record { octets = []; behind = []; refused = None };
          read_by_b = record { octets = []; behind = []; refused = None };
          calls = [];
        } }
    {
        LineOutside {
            alloc,
            inner,
            file_a,
            file_b,
            read_by_a: LinePort::new(alloc),
            read_by_b: LinePort::new(alloc),
            trace: Trace::new(),
            of: PhantomData,
        }
    }

    /// The outside below, as it stands. Its readers' ports show the messages of what was put for them, and the calls that were made
    /// on it are those that the calls on this one came to.
    pub fn into_inner(self) -> O
        ensures inner { result ≡ self.inner }
        ensures ports { PortsStand self.read_by_a self.read_by_b N.held
            (O.told result).holds N.faults
            (O.told result).port_faults }
        ensures calls { CallsStand self.calls self.read_by_a self.read_by_b N.calls
            (O.told result).calls }
    {
        let LineOutside {
            alloc: _,
            inner,
            file_a: _,
            file_b: _,
            read_by_a: _,
            read_by_b: _,
            trace: _,
            of: _,
        } = self;
        inner
    }
}

impl<O: Outside, N: Naming> Outside for LineOutside<O, N> {
    ghost use Rattle.std.specs.Prelude.{Some};
    ghost use Rattle.message_pipe.specs.Lined.{lined_content, lined_holds};

    ghost told = { λ lines. record (O.told lines.inner) {
      content = lined_content lines.file_a lines.file_b (O.told lines.inner).content;
      holds = lined_holds lines.read_by_a.octets lines.read_by_b.octets (O.told lines.inner).holds;
      calls = Some lines.calls;
    } };

    fn load(&mut self, alloc: Global, name: &str, limit: u64) -> Result<Vec<u8>, LoadFault> {
        let lined = (self.file_a.as_str(), self.file_b.as_str());
        let told = load_from(alloc, &mut self.inner, lined, name, limit);
        let ok = told.is_ok();
        self.trace = self.trace.then(&MadeCall::Load { name, ok });
        told
    }

    fn bind(&mut self, port: Port, name: &str) -> Result<(), PutFault> {
        match port {
            Port::ReadByA => {
                let lines = &mut self.read_by_a;
                let told = bind_for(self.alloc, &mut self.inner, Port::ReadByA, lines, name);
                let ok = told.is_ok();
                self.trace = self.trace.then(&MadeCall::Bind { port, name, ok });
                told
            }
            Port::ReadByB => {
                let lines = &mut self.read_by_b;
                let told = bind_for(self.alloc, &mut self.inner, Port::ReadByB, lines, name);
                let ok = told.is_ok();
                self.trace = self.trace.then(&MadeCall::Bind { port, name, ok });
                told
            }
            Port::Log => {
                let told = self.inner.bind(Port::Log, name);
                let ok = told.is_ok();
                self.trace = self.trace.then(&MadeCall::Bind { port, name, ok });
                told
            }
        }
    }

    fn put(&mut self, port: Port, piece: &[u8]) -> Result<(), PutFault> {
        match port {
            Port::ReadByA => {
                let lines = &mut self.read_by_a;
                let told = put_for(self.alloc, &mut self.inner, Port::ReadByA, lines, piece);
                let ok = told.is_ok();
                self.trace = self.trace.then(&MadeCall::Put { port, piece, ok });
                told
            }
            Port::ReadByB => {
                let lines = &mut self.read_by_b;
                let told = put_for(self.alloc, &mut self.inner, Port::ReadByB, lines, piece);
                let ok = told.is_ok();
                self.trace = self.trace.then(&MadeCall::Put { port, piece, ok });
                told
            }
            Port::Log => {
                let told = self.inner.put(Port::Log, piece);
                let ok = told.is_ok();
                self.trace = self.trace.then(&MadeCall::Put { port, piece, ok });
                told
            }
        }
    }
}
