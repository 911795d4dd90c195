//! The same part of each picture: how shapes look, and the legend.

/// The style sheet, the shapes that are used by name, and the legend.
pub(crate) const STYLE: &str =
    "<style>text{font:12px monospace;fill:#222;stroke:#fff;stroke-width:5px;stroke-linejoin:round;paint-order:stroke}
.e{fill:#aaa}.h{font-weight:bold}.t{fill:#060;font-weight:bold}.s{font-weight:bold;text-anchor:middle}
.over,.again,.lost,.fly{fill:none;stroke:#333;stroke-width:1.5;marker-end:url(#head)}
.again{stroke:#80c;stroke-dasharray:9 2 2 2;marker-end:url(#double)}.lost{stroke:#c00;marker-end:url(#cross)}
.fly{stroke:#06c;stroke-dasharray:5 4;marker-end:url(#open)}</style>
<defs>
<marker id='head' orient='auto' markerUnits='userSpaceOnUse' markerWidth='12' markerHeight='10' refX='18' refY='5'>\
<path d='M0 0L12 5L0 10z' fill='#333'/></marker>
<marker id='double' orient='auto' markerUnits='userSpaceOnUse' markerWidth='18' markerHeight='10' refX='24' refY='5'>\
<path d='M0 0L9 5L0 10zM9 0L18 5L9 10z' fill='#80c'/></marker>
<marker id='open' orient='auto' markerUnits='userSpaceOnUse' markerWidth='12' markerHeight='10' refX='18' refY='5'>\
<path d='M1 1L11 5L1 9' fill='none' stroke='#06c' stroke-width='1.5'/></marker>
<marker id='cross' markerUnits='userSpaceOnUse' markerWidth='14' markerHeight='14' refX='7' refY='7'>\
<path d='M1 1L13 13M1 13L13 1' stroke='#c00' stroke-width='2.5'/></marker>
<path id='Untouched' d='M0 0V22' stroke='#aaa' stroke-dasharray='4 3.3'/>
<path id='Nil' d='M-5.5 0V22M5.5 0V22' stroke='#999'/>
<g id='Copy'><rect x='-6' width='12' height='22' fill='#c6dbef'/><path d='M-6 11L6 0M-6 22L6 11' stroke='#3070a0'/></g>
<g id='OwnRead'><rect x='-6' width='12' height='22' fill='#6baed6'/><path d='M-6 11L6 0M-6 22L6 11M-6 0L6 11M-6 11L6 22' stroke='#08407c'/></g>
<rect id='OwnWrite' x='-6' width='12' height='22' fill='#f28e2b'/>
<g id='Handed'><rect x='-6' width='12' height='22' fill='#fde2c4'/><path d='M-6 5.5H6M-6 11H6M-6 16.5H6' stroke='#b05a00'/></g>
<g id='Purged'><rect x='-6' width='12' height='22' fill='#888'/><path d='M0 0V22' stroke='#222' stroke-width='4'/></g>
<circle id='Request' r='4.5' fill='#fff' stroke='#060' stroke-width='2'/>
<g id='Tick'><circle r='7' fill='#fff' stroke='#222' stroke-width='1.5'/><path d='M0 -5V0H4' fill='none' stroke='#222' stroke-width='1.5'/></g>
<path id='Restart' d='M-11 3L-4 -6L4 6L11 -3' fill='none' stroke='#c00' stroke-width='3'/>
</defs>
<rect width='100%' height='100%' fill='#fff'/>
<use href='#Untouched' x='14' y='5'/><text x='26' y='20'>untouched</text><use href='#Nil' x='110' y='5'/><text x='122' y='20'>nil</text>
<use href='#Copy' x='162' y='5'/><text x='174' y='20'>copy</text><use href='#OwnRead' x='222' y='5'/><text x='234' y='20'>owner reads</text>
<use href='#OwnWrite' x='332' y='5'/><text x='344' y='20'>owner writes</text><use href='#Handed' x='450' y='5'/><text x='462' y='20'>handed</text>
<use href='#Purged' x='524' y='5'/><text x='536' y='20'>purged</text>
<path class='over' d='M8 42H44'/><text x='46' y='46'>handed over</text><path class='again' d='M138 42H180'/><text x='182' y='46'>repeated</text>
<path class='lost' d='M252 42H276'/><text x='290' y='46'>lost</text><path class='fly' d='M330 42H370'/><text x='372' y='46'>on its way</text>
<use href='#Request' x='458' y='42'/><text x='468' y='46'>request</text><use href='#Tick' x='534' y='42'/><text x='545' y='46'>tick</text>
<use href='#Restart' x='594' y='42'/><text x='609' y='46'>restart</text>
";
