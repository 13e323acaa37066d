//! A gateway as a loop over sockets sees it.
ghost use Rattle.std.specs.Prelude.{◌≡◌, ◌≢◌, ◌+◌, ◌-◌, ◌^◌, min, [], ◌∷◌, length, OnOk, OnErr, IfOk, IfErr, IsOkUnless, MatchBool, MatchOption, None, unwrap_or, option_copied};
ghost use Rattle.gate_core.specs.Events.{Open};
ghost use Rattle.gate_core.specs.ConnectionState.{connection_at, open_refusal, waiting, OthersSame};
ghost use Rattle.gate_core.specs.Kept.{kept_in};
ghost use Rattle.gate_flow.specs.Faults.{IsCallFault};
ghost use Rattle.gate_flow.specs.State.{opened_flow};
ghost use Rattle.gate_flow.specs.Led.{TakesBytes, IsLed, IsLedAsWritten, IsGivenUp};
ghost use Rattle.gate_flow.specs.Steps.{Advances, AdvancesAsWritten, Rests};
ghost use Rattle.gate_flow.specs.Hosted.{IsForgotten, IsHosted, IsHostedWith};
ghost use Rattle.gate_flow.specs.declared.want.Want.TheVariants as want;

use crate::calls::waits;
use crate::fault::FlowFault;
use crate::flow::Flow;
use gate_base::Prospect;
use gate_core::Gateway;
use share_store::Store;
use std::alloc::Global;
use std::marker::Model;

/// A gateway that can be called only for connections of one's own: one is opened, goes on, is closed and is forgotten.
/// Nothing else of it can be changed, and all of it may be looked at.
#[derive(Drop)]
pub struct Lobby<S: Store> {
    gateway: Gateway<S>,
}

impl<S: Store> Model for Lobby<S> {
    ghost use Rattle.std.specs.Prelude.{refl};
    ghost use Rattle.std.specs.FinMap as map;
    ghost use Rattle.std.specs.Coded.{code_by, coded×, coded_ℕ};
    ghost use Rattle.grid.specs.GridState.{GridState, grid_code};
    ghost use Rattle.gate_core.specs.contracts.connection.Connection as held;
    ghost use Rattle.gate_base.specs.contracts.pages.Page as page;
    ghost use Rattle.gate_core.specs.Settings.{GatewaySettings, settings_code};
    ghost use Rattle.gate_core.specs.ConnectionState.{Connections, State};
    ghost use Rattle.gate_base.specs.declared.tally.Tally.{Tally};
    ghost use Rattle.gate_base.specs.Tallies.{tally_code};

    ghost Value = { State };

    ghost coded = { code_by (GatewaySettings × (Connections × (GridState × Tally)))
        (coded× (settings_code page.the_row.coded)
        (coded× (map.code coded_ℕ held.the_row.coded) (coded× grid_code tally_code)))
        (λ s. (s.settings, (s.connections, (s.grid, s.tally))))
        (λ p. record {
          settings = p.0;
          connections = p.1.0;
          grid = p.1.1.0;
          tally = p.1.1.1;
        }) (λ _. refl) };

    ghost view = { λ l. l.gateway };
}

impl<S: Store> Lobby<S> {
    /// A gateway that a loop may serve.
    pub fn new(gateway: Gateway<S>) -> Lobby<S>
        ensures { result ≡ gateway }
    {
        Lobby { gateway }
    }

    /// The gateway, once it is served no more.
    pub fn into_gateway(self) -> Gateway<S>
        ensures { result ≡ self }
    {
        self.gateway
    }

    /// The gateway, to be looked at.
    pub fn gateway(&self) -> &Gateway<S>
        ensures { result.now ≡ self.now }
    {
        &self.gateway
    }

    /// How many bytes the gateway keeps of a flow's connection, up to 2^64 - 1: of a request that isn't whole yet, and of what
    /// waits for it.
    pub fn kept(&self, flow: &Flow) -> usize
        ensures { result ≡ min (kept_in (connection_at self.now flow.now.id)) (2 ^ 64 - 1) }
    {
        self.gateway.kept(flow.id())
    }

    /// Opens a connection, under the gateway's own secret where it brings none. What `Flow::open` says holds of it.
    pub fn open(&mut self, alloc: Global, id: u64, secret: Option<&[u8]>) -> Result<Flow, FlowFault>
        ensures answer { MatchOption (open_refusal (connection_at self.old id)
            (length (unwrap_or (option_copied secret.entry) [])))
            (IsOkUnless result FlowFault.NoMemory) (λ _. result ≡ Err FlowFault.Refused) }
        ensures opened { IfOk result (λ flow. flow ≡ opened_flow id) }
        ensures led { OnOk result (IsLed id (Open id
            (unwrap_or (option_copied secret.entry) self.old.settings.secret)
            ∷ []) self.old self.new) }
        ensures as_written { OnOk result (IsLedAsWritten (Open id
            (unwrap_or (option_copied secret.entry) self.old.settings.secret)
            ∷ []) self.old self.new) }
        ensures rests { IfOk result (λ flow. Rests flow self.new) }
        ensures takes { OnOk result (TakesBytes (connection_at self.new id)) }
        ensures fresh { OnOk result (connection_at self.old id ≡ None) }
        ensures err { OnErr result (self.new ≡ self.old) }
        ensures hosted { OnOk result (IsHostedWith id (id + 1)
            ((id, unwrap_or (option_copied secret.entry) self.old.settings.secret)
            ∷ []) self.old self.new) }
    {
        crate::laws::gateways_are_hosted();
        Flow::open(alloc, &mut self.gateway, id, secret)
    }

    /// Whether bytes wait for a flow's connection.
    pub fn waits(&self, flow: &Flow) -> bool
        ensures { MatchBool result (waiting self.now flow.now.id ≢ []) (waiting self.now flow.now.id ≡ []) }
    {
        waits(&self.gateway, flow.id())
    }

    /// Takes a step of what the gateway will do with the bytes that a flow has at hand, and says whether it had better not
    /// go on yet, and else what the reply will hold, as `Gateway::prepare` does. It is no call of a connection.
    pub fn prepare(&mut self, flow: &Flow, may_hold: bool) -> Prospect
        ensures led { IsLed flow.now.id [] self.old self.new }
        ensures as_written { IsLedAsWritten [] self.old self.new }
        ensures hosted { IsHosted flow.now.id (flow.now.id + 1) self.old self.new }
    {
        crate::laws::gateways_are_hosted();
        self.gateway.prepare(flow.id(), flow.at_hand(), may_hold)
    }

    /// Lets go of what was prepared for a connection.
    pub fn let_go_of(&mut self, id: u64)
        ensures { self.new ≡ self.old }
    {
        self.gateway.let_go_of(id);
    }

    /// Lets a flow go on, as `Flow::advance` does.
    pub fn advance(&mut self, flow: &mut Flow) -> Result<(), FlowFault>
        requires { flow.old.want ≡ want.Advance }
        ensures ok { OnOk result (AdvancesAsWritten flow.old flow.new self.old self.new) }
        ensures err { OnErr result (Advances flow.old flow.new self.old self.new) }
        ensures rests { OnOk result (Rests flow.new self.new) }
        ensures faults { IfErr result (IsCallFault (connection_at self.old flow.old.id)) }
        ensures hosted { IsHosted flow.old.id (flow.old.id + 1) self.old self.new }
    {
        crate::laws::gateways_are_hosted();
        flow.advance(&mut self.gateway)
    }

    /// Closes a connection, as `Flow::close` does.
    pub fn close(&mut self, flow: Flow)
        ensures given_up { IsGivenUp flow.id self.old self.new }
        ensures hosted { IsHosted flow.id (flow.id + 1) self.old self.new }
    {
        crate::laws::gateways_are_hosted();
        flow.close(&mut self.gateway);
    }

    /// Lets go of what is held of a connection that was closed, if memory lasts.
    pub fn forget(&mut self, id: u64)
        ensures forgotten { IsForgotten id self.old self.new }
        ensures others { OthersSame self.old self.new id }
        ensures hosted { IsHosted id (id + 1) self.old self.new }
    {
        crate::laws::gateways_are_hosted();
        gate_core::laws::faithful_goes_on();
        let _ = self.gateway.forget(id);
    }
}
