//! The help text.

pub const HELP: &str = r#"vindaskot: any TwinCAT symbol upload, in words

  vindaskot find FILE NAME              where the symbol starts in the upload, and its type
  vindaskot find FILE NAME ATTRIBUTE    the value of its attribute, and nothing else
  vindaskot show FILE NAME              everything of one symbol, and a picture of its bytes
  vindaskot why FILE NAME               why its GUID, attributes, extended flags and former names are there or not
  vindaskot list FILE [--json]          a table of the entries, or a line of JSON for each; --sorted by their names
  vindaskot branch FILE TEXT [--json]   the same of the symbols whose names begin with TEXT, in the order of the names
  vindaskot type FILE [NAME] [--json]   data types with their members as trees, all or the first of a name
  vindaskot check FILE                  how many entries there are, what was refused, and where
  vindaskot plain FILE                  whether each entry is what would be written of it, or where the first is not
  vindaskot compare A B [--json]        which entries of two uploads differ and in which parts, and what else moved
  vindaskot salvage FILE OUT            the accepted entries as a new upload in OUT, and a table of what was dropped
  vindaskot bind SYMBOLS TYPES PATH..   addresses of variables by their paths, through symbols and data types; --json
  vindaskot captures split FILE         the upload as lines of digits, one for each entry
  vindaskot captures each LINES         the same of each line of LINES, which is an upload
  vindaskot captures join LINES         the upload that such lines are
  vindaskot sheet export FILE           a table of the entries for a spreadsheet, with all that one can be made of again
  vindaskot sheet import SHEET OUT      the upload of such a table in OUT
  vindaskot room LENGTH                 how many slots the index of an upload of so many bytes can need

FILE is a path, or - for standard input: up to 16,777,216 bytes, binary or hexadecimal text. Digits are of either case,
with white space and line ends of any kind between them. Which it is, the first four bytes tell: four characters of text
would be the length of an entry above that limit, so they are hexadecimal. show, why, list, branch, type, check, plain,
compare and salvage say which, and so does every refusal of what was read. It is an upload of symbols, for type one of
data types.
Words of the command line are UTF-8; a file of another name is read from standard input.

why says of each section of a symbol whether it is not flagged, has too few bytes left, or is there, and of attributes and
former names which record was refused, with the number of the refusal, or how many are owed where the entry ends. Below
that stand the bytes at the place that is told, 16 at most. Places are in the entry. Where nothing that is flagged or
announced is missing, a last line says so. A section that has no room moves nothing, and a refused attribute ends its
list: the next section is looked for at that same place.

type prints a tree: members stand below what they are members of, two columns further to the right. Of each, the offset
within what it is a member of is told, and the offset from the start of the whole data type, the sum of the offsets on the
way down to it; array bounds are as IEC 61131-3 has them. Offsets and sizes are in bytes, and the member's data lie there,
where nothing stands under mark, in JSON in marks:
  bits         its offset and size are in bits
  static       its data do not lie there
  property     code reads and writes it: no data lie there
  reference    a reference lies there, and the data of its members where it leads
  in ..        it stands in a member of that mark, so that its offset from the start is no place
What stands in an array is told of its first element. A data type is refused as a whole where one of its members is, with
that member's own figures, and where they stand in each other more than 16 deep.

A and B are each as FILE is, and one of them at most is -. The table of compare has a line for each part in which an
entry differs, under the name that the part has beside the picture of show; what is told there is what A has and what B
has. Where that is the same in both, the first byte in which they differ is told. Lengths of strings are not told beside
the strings. Under refusal stands why an entry is refused in one of them, or in both for other reasons or with other
bytes. Entries that one has alone are told as such. Where B has an entry at another place, a line says by how much, once
for it and all that follows. An entry of A is the same one as an entry of B by the first of these that finds it:
  the same name, in any case of A to Z, at the same place and as long
  the same name anywhere, of several the first with the first; what is refused has no name, so its bytes are taken
  at the same place, and as long or refused in one of them
  as long, and right behind the same entry
So damage in an entry that leaves its first four bytes, its length, as they were is told of that entry alone. In JSON a
and b are null where the entry is not there, and later_in_b is by how many bytes B has it at a later place.

SYMBOLS and TYPES are each as FILE is, of one controller, and one of them at most is -. bind writes a line a path, in the
order given: the index group, the index offset, the size and the type of the variable or of the part of one that the path
names, as MAIN.stLens.aTable[3].fZoom does, and the upload and the place of the entry that says so. A value that is in bits
has the bit of the byte behind a dot, and its size in bits. A path that has no address has the refusal and the part of the
path where it was met. A to Z in a path are as a to z.

OUT is a path where nothing stands yet: nothing is written over, the file that is read least of all. It is binary,
whatever FILE is, and it is there whole or not at all: it gets its name once it is whole, by a hard link. FAT and other
file systems that have none refuse it; write it elsewhere and copy it. A run that is killed can leave a file by the name
of .vindaskot-, its process number and another number beside OUT, which nothing reads: remove it.

The accepted entries stand in OUT unchanged and in order; each refused one is a line of the table, with its place, its
length and the reason. From a length of 0 on, and from one that leaves the upload, all is dropped. Read as FILE was,
with --checked or without, nothing in OUT is refused.

LINES is a path, or -, of lines of hexadecimal digits, of either case and with nothing between them, which each end in a
line feed; the last may lack it. What captures split and each write are such lines, in capitals: a line for each entry,
accepted or not, and one for what is cut at the end, or all that an entry of length 0 begins. Editors can move them.
captures join writes the bytes of all lines, one after another: of a file that split wrote just the upload, in binary.

SHEET is a path, or -, of comma-separated values in UTF-8, as RFC 4180 has them: the header that sheet export writes, then
a row for each entry, with whole numbers in decimal. A program that writes it must keep commas between cells, leave
strings as they are and put no byte order mark before them. A cell that begins with = + - or @ stands as the symbol has
it, and a spreadsheet program may take it for a formula: have it read the columns name, type and comment as text, and no
sheet that you don't trust as anything else. Rows count from the header, which is 1. sheet export refuses an upload with
a GUID, attributes, extended flags, unread bytes or an end byte that is not 0, since a sheet has no room for these.

plain reads each entry and holds its bytes against those that would be written of what it tells: as many, every end byte
0, every flagged section there, all attributes shown, nothing unread. Of the first entry that is not so, the place is
told, and the byte that is another or why nothing would be written. A plain upload is accepted with --checked too.

LENGTH is a number of bytes in decimal digits, with or without zeros before it. Nothing is read, and the number of slots
is printed alone: whatever the upload will be, with --checked or without, its index needs no more, and some upload of
that length needs all of them.

  --binary, --hex    the file is binary, or hexadecimal, whatever it looks like
  --checked          an entry is refused where a name, a value or another string does not end in a byte of 0: it may have
                     been cut there. Without this, such an entry is shown as it is
  --sorted           list: accepted entries in the order of their names, A to Z as a to z, refused ones behind them
  --json             list, branch and type: a line of JSON an entry; bind: one a path; compare: one for each that differs,
                     and one where the distance to B's places changes
  --help, -h         this text
  --version, -V      the version

A symbol or a data type is found by its name in any case of A to Z, and its name is printed as the upload has it.
Accented letters, and an attribute's name, must be typed as the upload has them.

Examples:
  vindaskot find rig.bin MAIN.stLens ZoomCurveEnd
  vindaskot show rig.bin MAIN.stLens
  vindaskot why rig.bin MAIN.stLens
  vindaskot list rig.hex | less -S
  vindaskot branch rig.bin MAIN.stLens.
  vindaskot type types.bin ST_LensTable
  xxd -p rig.bin | vindaskot check -
  vindaskot plain rehearsal.bin
  vindaskot bind rig.bin types.bin MAIN.stLens.aTable[3].fZoom
  vindaskot compare yesterday.bin today.bin
  vindaskot salvage --checked capture.bin rehearsal.bin
  vindaskot captures split rig.bin > rig.lines
  vindaskot sheet export axes.bin > axes.csv
  vindaskot sheet import axes.csv planned.bin
  vindaskot room 1400000

Status: 0 done, of compare that the two are alike; 1 refused, not found, not plain or different; 2 the arguments, a file
or the output. Messages go to standard error, with the number of the refusal (docs/FORMAT.md has the table). Of salvage
it is, whether or not anybody reads its table:
  0    everything was kept, and OUT is there
  1    something was dropped, and OUT is there; or FILE was refused as a whole, and OUT is not there
  2    nothing was written, unless it was the table that could not be printed
Colour is for a terminal, unless NO_COLOR is set.
"#;
