//! Each type of `messages_of_each_shape` has the bytes that its text means.
//! Each value's bytes are those of its parts, by their names.
ghost use Rattle.tls_codec_grammar.specs.Tree.{Tree};
ghost use Rattle.tls_presentation.specs.Meaning.{SameBytes, means, part_means};
ghost use Rattle.tls_presentation.specs.Says.{SpelledAs};
ghost use Rattle.messages_of_each_shape_laws.specs.Definitions.{messages_of_each_shape};
ghost use Rattle.messages_of_each_shape_laws.specs.Says.{LevelSays, LineSays, ListsSays, MagicX0102Says, NameTypeSays, NameTypeDataSays, NameTypeHostNameSays, NamedSays, NodeTBSSays, NodeTBSOriginSays, PixelSays, PointSays, ServerNameSays, SessionTicketSays, SizedTypeSays, ThreeDataSays, TreesSays, VersionDataSays, VersionXfefdSays, VersionedSays, WideSays};
ghost use Rattle.messages_of_each_shape.specs.declared.level.Level.{Level};
ghost use Rattle.messages_of_each_shape.specs.declared.line.Line.{Line};
ghost use Rattle.messages_of_each_shape.specs.declared.lists.Lists.{Lists};
ghost use Rattle.messages_of_each_shape.specs.declared.magic_x0102.MagicX0102.{MagicX0102};
ghost use Rattle.messages_of_each_shape.specs.declared.name_type.NameType.{NameType};
ghost use Rattle.messages_of_each_shape.specs.declared.name_type_data.NameTypeData.{NameTypeData};
ghost use Rattle.messages_of_each_shape.specs.declared.name_type_host_name.NameTypeHostName.{NameTypeHostName};
ghost use Rattle.messages_of_each_shape.specs.declared.named.Named.{Named};
ghost use Rattle.messages_of_each_shape.specs.declared.node_tbs.NodeTBS.{NodeTBS};
ghost use Rattle.messages_of_each_shape.specs.declared.node_tbs_origin.NodeTBSOrigin.{NodeTBSOrigin};
ghost use Rattle.messages_of_each_shape.specs.declared.pixel.Pixel.{Pixel};
ghost use Rattle.messages_of_each_shape.specs.declared.point.Point.{Point};
ghost use Rattle.messages_of_each_shape.specs.declared.server_name.ServerName.{ServerName};
ghost use Rattle.messages_of_each_shape.specs.declared.session_ticket.SessionTicket.{SessionTicket};
ghost use Rattle.messages_of_each_shape.specs.declared.sized_type.SizedType.{SizedType};
ghost use Rattle.messages_of_each_shape.specs.declared.three_data.ThreeData.{ThreeData};
ghost use Rattle.messages_of_each_shape.specs.declared.trees.Trees.{Trees};
ghost use Rattle.messages_of_each_shape.specs.declared.version_data.VersionData.{VersionData};
ghost use Rattle.messages_of_each_shape.specs.declared.version_xfefd.VersionXfefd.{VersionXfefd};
ghost use Rattle.messages_of_each_shape.specs.declared.versioned.Versioned.{Versioned};
ghost use Rattle.messages_of_each_shape.specs.declared.wide.Wide.{Wide};
ghost use Rattle.messages_of_each_shape.specs.Level.{level_code, level_name};
ghost use Rattle.messages_of_each_shape.specs.NameType.{name_type_names};
ghost use Rattle.std.specs.Prelude.{◌≡◌};
ghost use Rattle.tls_presentation.specs.Says.{names_in, value_number};

use messages_of_each_shape::{
    Level, Line, Lists, MagicX0102, NameType, NameTypeData, NameTypeHostName, Named, NodeTBS,
    NodeTBSOrigin, Pixel, Point, ServerName, SessionTicket, SizedType, ThreeData, Trees,
    VersionData, VersionXfefd, Versioned, Wide,
};
use tls_codec::{Size, SizeFor};

/// `Level`.
pub fn level_is_as_printed()
    ensures bytes { (c : Tree) → SameBytes (means messages_of_each_shape "Level" c)
        ⟦<Level as Size>⟧.format }
    ensures values { (v : Level) → SpelledAs ⟦<Level as Size>⟧.format (⟦<Level as Size>⟧.plain v)
        (LevelSays v) }
    ensures names { (v : Level) → value_number messages_of_each_shape "Level" (level_name v)
        ≡ level_code v }
{}

/// `Line`.
pub fn line_is_as_printed()
    ensures bytes { (c : Tree) → SameBytes (means messages_of_each_shape "Line" c)
        ⟦<Line as Size>⟧.format }
    ensures values { (v : Line) → SpelledAs ⟦<Line as Size>⟧.format (⟦<Line as Size>⟧.plain v)
        (LineSays v) }
{}

/// `Lists`.
pub fn lists_is_as_printed()
    ensures bytes { (c : Tree) → SameBytes (means messages_of_each_shape "Lists" c)
        ⟦<Lists as Size>⟧.format }
    ensures values { (v : Lists) → SpelledAs ⟦<Lists as Size>⟧.format (⟦<Lists as Size>⟧.plain v)
        (ListsSays v) }
{}

/// `MagicX0102`.
pub fn magic_x0102_is_as_printed()
    ensures bytes { (c : Tree) →
        SameBytes (part_means messages_of_each_shape "session_ticket" "magic" c)
        ⟦<MagicX0102 as Size>⟧.format }
    ensures values { (v : MagicX0102) → SpelledAs ⟦<MagicX0102 as Size>⟧.format
        (⟦<MagicX0102 as Size>⟧.plain v) (MagicX0102Says v) }
{}

/// `NameType`.
pub fn name_type_is_as_printed()
    ensures bytes { (c : Tree) → SameBytes (means messages_of_each_shape "NameType" c)
        ⟦<NameType as Size>⟧.format }
    ensures values { (v : NameType) → SpelledAs ⟦<NameType as Size>⟧.format
        (⟦<NameType as Size>⟧.plain v) (NameTypeSays v) }
    ensures names { name_type_names ≡ names_in messages_of_each_shape "NameType" }
{}

/// `NameTypeData`.
pub fn name_type_data_is_as_printed()
    ensures bytes { (c : Tree) → SameBytes (part_means messages_of_each_shape "Bearer" "body" c)
        (⟦<NameTypeData as SizeFor<NameType>>⟧.format_for c) }
    ensures values { (c : Tree) (v : NameTypeData) →
        SpelledAs (⟦<NameTypeData as SizeFor<NameType>>⟧.format_for c)
        (⟦<NameTypeData as SizeFor<NameType>>⟧.plain v) (NameTypeDataSays c v) }
{}

/// `NameTypeHostName`.
pub fn name_type_host_name_is_as_printed()
    ensures bytes { (c : Tree) →
        SameBytes (part_means messages_of_each_shape "ServerName" "name_type" c)
        ⟦<NameTypeHostName as Size>⟧.format }
    ensures values { (v : NameTypeHostName) → SpelledAs ⟦<NameTypeHostName as Size>⟧.format
        (⟦<NameTypeHostName as Size>⟧.plain v) (NameTypeHostNameSays v) }
{}

/// `Named`.
pub fn named_is_as_printed()
    ensures bytes { (c : Tree) → SameBytes (means messages_of_each_shape "Named" c)
        ⟦<Named as Size>⟧.format }
    ensures values { (v : Named) → SpelledAs ⟦<Named as Size>⟧.format (⟦<Named as Size>⟧.plain v)
        (NamedSays v) }
{}

/// `NodeTBS`.
pub fn node_tbs_is_as_printed()
    ensures bytes { (c : Tree) → SameBytes (means messages_of_each_shape "NodeTBS" c)
        ⟦<NodeTBS<'static> as Size>⟧.format }
    ensures values { (v : NodeTBS) → SpelledAs ⟦<NodeTBS<'static> as Size>⟧.format
        (⟦<NodeTBS<'static> as Size>⟧.plain v) (NodeTBSSays v) }
{}

/// `NodeTBSOrigin`.
pub fn node_tbs_origin_is_as_printed()
    ensures bytes { (c : Tree) →
        SameBytes (part_means messages_of_each_shape "NodeTBS" "node_source" c)
        ⟦<NodeTBSOrigin<'static> as Size>⟧.format }
    ensures values { (v : NodeTBSOrigin) → SpelledAs ⟦<NodeTBSOrigin<'static> as Size>⟧.format
        (⟦<NodeTBSOrigin<'static> as Size>⟧.plain v) (NodeTBSOriginSays v) }
{}

/// `Pixel`.
pub fn pixel_is_as_printed()
    ensures bytes { (c : Tree) → SameBytes (means messages_of_each_shape "Pixel" c)
        ⟦<Pixel as Size>⟧.format }
    ensures values { (v : Pixel) → SpelledAs ⟦<Pixel as Size>⟧.format (⟦<Pixel as Size>⟧.plain v)
        (PixelSays v) }
{}

/// `Point`.
pub fn point_is_as_printed()
    ensures bytes { (c : Tree) → SameBytes (means messages_of_each_shape "Point" c)
        ⟦<Point as Size>⟧.format }
    ensures values { (v : Point) → SpelledAs ⟦<Point as Size>⟧.format (⟦<Point as Size>⟧.plain v)
        (PointSays v) }
{}

/// `ServerName`.
pub fn server_name_is_as_printed()
    ensures bytes { (c : Tree) → SameBytes (means messages_of_each_shape "ServerName" c)
        ⟦<ServerName as Size>⟧.format }
    ensures values { (v : ServerName) → SpelledAs ⟦<ServerName as Size>⟧.format
        (⟦<ServerName as Size>⟧.plain v) (ServerNameSays v) }
{}

/// `SessionTicket`.
pub fn session_ticket_is_as_printed()
    ensures bytes { (c : Tree) → SameBytes (means messages_of_each_shape "session_ticket" c)
        ⟦<SessionTicket as Size>⟧.format }
    ensures values { (v : SessionTicket) → SpelledAs ⟦<SessionTicket as Size>⟧.format
        (⟦<SessionTicket as Size>⟧.plain v) (SessionTicketSays v) }
{}

/// `SizedType`.
pub fn sized_type_is_as_printed()
    ensures bytes { (c : Tree) → SameBytes (means messages_of_each_shape "Sized" c)
        ⟦<SizedType as Size>⟧.format }
    ensures values { (v : SizedType) → SpelledAs ⟦<SizedType as Size>⟧.format
        (⟦<SizedType as Size>⟧.plain v) (SizedTypeSays v) }
{}

/// `ThreeData`.
pub fn three_data_is_as_printed()
    ensures bytes { (c : Tree) → SameBytes (means messages_of_each_shape "ThreeData" c)
        ⟦<ThreeData as Size>⟧.format }
    ensures values { (v : ThreeData) → SpelledAs ⟦<ThreeData as Size>⟧.format
        (⟦<ThreeData as Size>⟧.plain v) (ThreeDataSays v) }
{}

/// `Trees`.
pub fn trees_is_as_printed()
    ensures bytes { (c : Tree) → SameBytes (means messages_of_each_shape "Trees" c)
        ⟦<Trees as Size>⟧.format }
    ensures values { (v : Trees) → SpelledAs ⟦<Trees as Size>⟧.format (⟦<Trees as Size>⟧.plain v)
        (TreesSays v) }
{}

/// `VersionData`.
pub fn version_data_is_as_printed()
    ensures bytes { (c : Tree) → SameBytes (part_means messages_of_each_shape "Sized" "contents" c)
        ⟦<VersionData as Size>⟧.format }
    ensures values { (v : VersionData) → SpelledAs ⟦<VersionData as Size>⟧.format
        (⟦<VersionData as Size>⟧.plain v) (VersionDataSays v) }
{}

/// `VersionXfefd`.
pub fn version_xfefd_is_as_printed()
    ensures bytes { (c : Tree) →
        SameBytes (part_means messages_of_each_shape "session_ticket" "version" c)
        ⟦<VersionXfefd as Size>⟧.format }
    ensures values { (v : VersionXfefd) → SpelledAs ⟦<VersionXfefd as Size>⟧.format
        (⟦<VersionXfefd as Size>⟧.plain v) (VersionXfefdSays v) }
{}

/// `Versioned`.
pub fn versioned_is_as_printed()
    ensures bytes { (c : Tree) → SameBytes (means messages_of_each_shape "Versioned" c)
        ⟦<Versioned as Size>⟧.format }
    ensures values { (v : Versioned) → SpelledAs ⟦<Versioned as Size>⟧.format
        (⟦<Versioned as Size>⟧.plain v) (VersionedSays v) }
{}

/// `Wide`.
pub fn wide_is_as_printed()
    ensures bytes { (c : Tree) → SameBytes (means messages_of_each_shape "Wide" c)
        ⟦<Wide as Size>⟧.format }
    ensures values { (v : Wide) → SpelledAs ⟦<Wide as Size>⟧.format (⟦<Wide as Size>⟧.plain v)
        (WideSays v) }
{}
