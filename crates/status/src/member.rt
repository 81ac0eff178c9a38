//! The names of the members of the object that `/health` shows.

ghost use Rattle.std.specs.Prelude.{◌≡◌};
ghost use Rattle.status.specs.Members.{member_text};

/// The name of a member.
#[derive(Clone, Copy, Debug, PartialEq, Eq)]
pub(crate) enum Member {
    ClusterId,
    ClusterName,
    Connections,
    Initialized,
    LastFault,
    PerformanceStandby,
    ReplicationDrMode,
    ReplicationPerformanceMode,
    Sealed,
    ServerTimeUtc,
    Since,
    Standby,
    State,
    Store,
    Uptime,
    Version,
}

impl Member {
    /// The name.
    #[tactic(auto, unfolding(crate::specs::Members::member_text))]
    pub(crate) fn text(self) -> &'static str
        ensures { result.now ≡ member_text self }
    {
        match self {
            Member::ClusterId => "cluster_id",
            Member::ClusterName => "cluster_name",
            Member::Connections => "connections",
            Member::Initialized => "initialized",
            Member::LastFault => "last_fault",
            Member::PerformanceStandby => "performance_standby",
            Member::ReplicationDrMode => "replication_dr_mode",
            Member::ReplicationPerformanceMode => "replication_performance_mode",
            Member::Sealed => "sealed",
            Member::ServerTimeUtc => "server_time_utc",
            Member::Since => "since",
            Member::Standby => "standby",
            Member::State => "state",
            Member::Store => "store",
            Member::Uptime => "uptime",
            Member::Version => "version",
        }
    }
}
