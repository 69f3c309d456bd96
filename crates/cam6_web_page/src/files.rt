//! The page's files: the path, the kind and the bytes of each, as `tools/embed` puts them here.
ghost use Rattle.std.specs.Prelude.{◌≡◌, IfNone, IfSome};
ghost use Rattle.cam6_web_page.specs.Files.{IsNowhere, bytes_of, kind_of, path_to};

use crate::kinds::Kind;
use crate::texts;

/// A file of the page.
#[derive(Clone, Copy, Debug, PartialEq, Eq)]
pub enum File {
    IndexHtml,
    AppJs,
    ControlsJs,
    CycleJs,
    DialJs,
    DomJs,
    EditorJs,
    ExplainJs,
    FaultsJs,
    FilesJs,
    FilmJs,
    ForthJs,
    GalleryJs,
    GalleryMenuJs,
    GesturesJs,
    HelpJs,
    HostJs,
    JournalJs,
    KeysJs,
    LinesJs,
    LinkJs,
    MachineJs,
    PaletteJs,
    PanelJs,
    PatternsJs,
    PieceJs,
    PlanesJs,
    QueueJs,
    ScreenJs,
    ShapesJs,
    StorageJs,
    StyleCss,
    ToolsJs,
    TorusJs,
    TroubleJs,
    ViewJs,
}

/// Returns the file of the page at a path, or `None` if there is none.
pub fn file_at(path: &str) -> Option<File>
    ensures found { IfSome result (λ file. path.now ≡ path_to file) }
    ensures none { IfNone result (IsNowhere path.now) }
{
    match path {
        "/" => Some(File::IndexHtml),
        "/app.js" => Some(File::AppJs),
        "/controls.js" => Some(File::ControlsJs),
        "/cycle.js" => Some(File::CycleJs),
        "/dial.js" => Some(File::DialJs),
        "/dom.js" => Some(File::DomJs),
        "/editor.js" => Some(File::EditorJs),
        "/explain.js" => Some(File::ExplainJs),
        "/faults.js" => Some(File::FaultsJs),
        "/files.js" => Some(File::FilesJs),
        "/film.js" => Some(File::FilmJs),
        "/forth.js" => Some(File::ForthJs),
        "/gallery.js" => Some(File::GalleryJs),
        "/gallery_menu.js" => Some(File::GalleryMenuJs),
        "/gestures.js" => Some(File::GesturesJs),
        "/help.js" => Some(File::HelpJs),
        "/host.js" => Some(File::HostJs),
        "/journal.js" => Some(File::JournalJs),
        "/keys.js" => Some(File::KeysJs),
        "/lines.js" => Some(File::LinesJs),
        "/link.js" => Some(File::LinkJs),
        "/machine.js" => Some(File::MachineJs),
        "/palette.js" => Some(File::PaletteJs),
        "/panel.js" => Some(File::PanelJs),
        "/patterns.js" => Some(File::PatternsJs),
        "/piece.js" => Some(File::PieceJs),
        "/planes.js" => Some(File::PlanesJs),
        "/queue.js" => Some(File::QueueJs),
        "/screen.js" => Some(File::ScreenJs),
        "/shapes.js" => Some(File::ShapesJs),
        "/storage.js" => Some(File::StorageJs),
        "/style.css" => Some(File::StyleCss),
        "/tools.js" => Some(File::ToolsJs),
        "/torus.js" => Some(File::TorusJs),
        "/trouble.js" => Some(File::TroubleJs),
        "/view.js" => Some(File::ViewJs),
        _ => None,
    }
}

/// What the file is.
pub fn kind_of(file: File) -> Kind
    ensures { result ≡ kind_of file }
{
    match file {
        File::IndexHtml => Kind::Html,
        File::AppJs => Kind::Script,
        File::ControlsJs => Kind::Script,
        File::CycleJs => Kind::Script,
        File::DialJs => Kind::Script,
        File::DomJs => Kind::Script,
        File::EditorJs => Kind::Script,
        File::ExplainJs => Kind::Script,
        File::FaultsJs => Kind::Script,
        File::FilesJs => Kind::Script,
        File::FilmJs => Kind::Script,
        File::ForthJs => Kind::Script,
        File::GalleryJs => Kind::Script,
        File::GalleryMenuJs => Kind::Script,
        File::GesturesJs => Kind::Script,
        File::HelpJs => Kind::Script,
        File::HostJs => Kind::Script,
        File::JournalJs => Kind::Script,
        File::KeysJs => Kind::Script,
        File::LinesJs => Kind::Script,
        File::LinkJs => Kind::Script,
        File::MachineJs => Kind::Script,
        File::PaletteJs => Kind::Script,
        File::PanelJs => Kind::Script,
        File::PatternsJs => Kind::Script,
        File::PieceJs => Kind::Script,
        File::PlanesJs => Kind::Script,
        File::QueueJs => Kind::Script,
        File::ScreenJs => Kind::Script,
        File::ShapesJs => Kind::Script,
        File::StorageJs => Kind::Script,
        File::StyleCss => Kind::Style,
        File::ToolsJs => Kind::Script,
        File::TorusJs => Kind::Script,
        File::TroubleJs => Kind::Script,
        File::ViewJs => Kind::Script,
    }
}

/// The file's bytes, compressed by gzip.
pub fn bytes_of(file: File) -> &'static [u8]
    ensures { result.now ≡ bytes_of file }
{
    match file {
        File::IndexHtml => texts::index_html::BYTES,
        File::AppJs => texts::app_js::BYTES,
        File::ControlsJs => texts::controls_js::BYTES,
        File::CycleJs => texts::cycle_js::BYTES,
        File::DialJs => texts::dial_js::BYTES,
        File::DomJs => texts::dom_js::BYTES,
        File::EditorJs => texts::editor_js::BYTES,
        File::ExplainJs => texts::explain_js::BYTES,
        File::FaultsJs => texts::faults_js::BYTES,
        File::FilesJs => texts::files_js::BYTES,
        File::FilmJs => texts::film_js::BYTES,
        File::ForthJs => texts::forth_js::BYTES,
        File::GalleryJs => texts::gallery_js::BYTES,
        File::GalleryMenuJs => texts::gallery_menu_js::BYTES,
        File::GesturesJs => texts::gestures_js::BYTES,
        File::HelpJs => texts::help_js::BYTES,
        File::HostJs => texts::host_js::BYTES,
        File::JournalJs => texts::journal_js::BYTES,
        File::KeysJs => texts::keys_js::BYTES,
        File::LinesJs => texts::lines_js::BYTES,
        File::LinkJs => texts::link_js::BYTES,
        File::MachineJs => texts::machine_js::BYTES,
        File::PaletteJs => texts::palette_js::BYTES,
        File::PanelJs => texts::panel_js::BYTES,
        File::PatternsJs => texts::patterns_js::BYTES,
        File::PieceJs => texts::piece_js::BYTES,
        File::PlanesJs => texts::planes_js::BYTES,
        File::QueueJs => texts::queue_js::BYTES,
        File::ScreenJs => texts::screen_js::BYTES,
        File::ShapesJs => texts::shapes_js::BYTES,
        File::StorageJs => texts::storage_js::BYTES,
        File::StyleCss => texts::style_css::BYTES,
        File::ToolsJs => texts::tools_js::BYTES,
        File::TorusJs => texts::torus_js::BYTES,
        File::TroubleJs => texts::trouble_js::BYTES,
        File::ViewJs => texts::view_js::BYTES,
    }
}
