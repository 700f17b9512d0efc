ghost use Rattle.std.specs.Prelude.{List};
ghost use Rattle.rt_catalog.specs.declared.catalog.Catalog.{Catalog as CatalogData};
ghost use Rattle.rt_entry.specs.declared.input.Settings.{Settings as SettingsData};
ghost use Rattle.rt_entry.specs.declared.input.Input.{Input as InputData};
ghost use Rattle.rt_entry.specs.Presence.{
  ClientsAgree,
  GivenClientsAgree,
  OpeningReadersAgree,
  OpeningsAgree,
  ReadersAgree,
  TakenClientsAgree,
};
ghost use Rattle.rt_laws.specs.Departures.{DeparturesAreTold};
ghost use Rattle.rt_laws.specs.Follows.{ClientsFollow};
ghost use Rattle.rt_laws.specs.Told.{AnswersAreReadable};
ghost use Rattle.rt_laws.specs.Views.{StatesAreRead};

/// A client that is told a presence state and then differences holds, up to order, the metas of the
/// state's tracks with each difference's joins added and its leaves removed, where the tracks'
/// numbers are below 2^64.
pub fn states_are_read()
    ensures { StatesAreRead }
{}

/// When a client is gone, each channel of another slot with presence enabled is told of every track
/// that leaves its topic, each once, in join order.
pub fn departures_are_told()
    ensures { (c : CatalogData) (s : SettingsData) → DeparturesAreTold c s }
{}

/// In a journal shorter than 2^64, a member with presence enabled that was told what is present on
/// its topic holds, with what the next input says to it, what is present then, up to order: for
/// every input but a stop, where the input doesn't let it depart.
pub fn clients_follow()
    ensures { (c : CatalogData) (s : SettingsData) → ClientsFollow c s }
{}

/// After any journal shorter than 2^64, each member with presence enabled holds, by its presence
/// state and the later differences that it was told, what is present on its topic, up to order.
pub fn clients_agree()
    ensures { (c : CatalogData) (s : SettingsData) (journal : List InputData)
        → ClientsAgree c s journal }
{}

/// So it is at each place of the journal that any steps make, where the limit on inputs is below
/// 2^32.
pub fn taken_clients_agree()
    ensures { (c : CatalogData) (s : SettingsData) → TakenClientsAgree c s }
{}

/// The same of what a slot was given after any steps, with such a limit. Where that is, of one of
/// the slot's openings and up to some place, exactly what is due of the opening that it has at a
/// place of the journal, it ends with all that the slot was told since the join of a member with
/// presence enabled, spelled; and by these messages a client holds what is present on its topic,
/// whatever it held before. So it is of all that was given of the last opening.
pub fn given_clients_agree()
    ensures each { (c : CatalogData) (s : SettingsData) → OpeningsAgree c s }
    ensures last { (c : CatalogData) (s : SettingsData) → GivenClientsAgree c s }
{}

/// Where the catalogue's names are UTF-8, the journal is shorter than 2^64 and its changes are
/// those of lines, every message that its inputs answer can be read: its texts are UTF-8, its
/// numbers are numbers of the grammar, and its payload nests in at most 67 levels.
pub fn answers_are_readable()
    ensures { (c : CatalogData) (s : SettingsData) → AnswersAreReadable c s }
{}

/// With such names and changes and a limit on inputs below 2^32, a client holds what is present by
/// the very bytes that its slot was given of one of its openings, up to some place, with whatever
/// reader of its own goes 68 levels deep; and so it is of all that was given of the last opening.
pub fn readers_agree()
    ensures each { (c : CatalogData) (s : SettingsData) → OpeningReadersAgree c s }
    ensures last { (c : CatalogData) (s : SettingsData) → ReadersAgree c s }
{}
